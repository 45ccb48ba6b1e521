ghost use Rattle.std.specs.Prelude.{◌≡◌, ◌≤◌, ◌<◌, length, vec_len, vec_capacity};
ghost use Rattle.cx_machine.specs.States.{stop_total};
ghost use Rattle.cx_machine.specs.Words.{small_of};
ghost use Rattle.cx_machine.specs.Values.{ids_of, place_of, truth, PutsIn, TakesOut, IsThere, MayMove, Moves};

use crate::kind::{Entry, Op};
use crate::machine::Machine;
use crate::number::small;
use crate::stop::{StopMachine, StopState};
use cx_names::{NoMemory, Reply, ThreadNo};
use std::alloc::Global;

/// A registered callback: its ID and what is to be run.
#[derive(Drop)]
pub struct Callback<C> {
    pub id: u32,
    pub value: C,
}

fn truth(holds: bool) -> Reply
    ensures { result ≡ truth holds }
{
    if holds { Reply::True } else { Reply::False }
}

// Takes the value from the hand into the list.
fn put_in<C: Drop>(values: &mut Vec<Callback<C>>, id: u32, hand: &mut Option<C>)
    requires { length values.old.items < vec_capacity values.old }
    ensures put { PutsIn values.old.items id hand.old values.new.items hand.new }
    ensures room { vec_capacity values.old ≤ vec_capacity values.new }
{
    if let Some(value) = hand.take() {
        values.push_reserved(Callback { id, value });
    }
}

// Where the callback stands in the list.
fn place_of<C: Drop>(values: &[Callback<C>], id: u32) -> Option<usize>
    ensures { result ≡ place_of values.now id }
{
    values.iter().position(|c| c.id == id)
}

// Takes the value of the callback out of the list.
fn take_out<C: Drop>(values: &mut Vec<Callback<C>>, id: u32) -> Option<C>
    requires { IsThere values.old.items id }
    ensures taken { TakesOut values.old.items id values.new.items result }
    ensures room { vec_capacity values.old ≤ vec_capacity values.new }
{
    let place = place_of(values, id)?;
    let Callback { id: _, value } = values.remove(place);
    Some(value)
}

// Moves the value of a callback between the hand and the list, where the change does so.
fn move_value<C: Drop>(values: &mut Vec<Callback<C>>, hand: &mut Option<C>, e: &Entry)
    requires { MayMove values.old.items (vec_capacity values.old) e.now.op (small_of e.now.a) e.now.reply }
    ensures moved { Moves values.old.items hand.old e.now.op (small_of e.now.a) e.now.reply values.new.items hand.new }
    ensures room { vec_capacity values.old ≤ vec_capacity values.new }
{
    match (e.op, small(e.a), e.reply) {
        (Op::Register, Some(id), _) => put_in(values, id, hand),
        (Op::Begin, Some(id), _) => *hand = take_out(values, id),
        (Op::Deregister, Some(id), Reply::Removed) => *hand = take_out(values, id),
        _ => {}
    }
}

/// A stop state, with the value of each registered callback.
#[derive(Drop)]
pub struct StopRegistry<C: Drop> {
    state: StopState,

    // In the order of registration.
    values: Vec<Callback<C>>,
    ghost same: { ids_of values.items ≡ state.registered.items },
    ghost roomy: { stop_total state ≤ vec_capacity values },
}

impl<C: Drop> StopRegistry<C> {
    ghost use Rattle.std.specs.Prelude.{[], slice_get};
    ghost use Rattle.cx_machine.specs.States.{stop_of};
    ghost use Rattle.cx_machine.specs.Stop.{opening};

    /// A stop state without a request and without callbacks, and this many sources.
    pub fn new(alloc: Global, sources: u32) -> StopRegistry<C>
        ensures state { stop_of result.state ≡ opening sources }
        ensures values { result.values.items ≡ [] }
    {
        StopRegistry {
            state: StopState::new(alloc, sources),
            values: Vec::new(alloc),
        }
    }

    /// The callback that was registered first, of those that are registered.
    pub fn first_registered(&self) -> Option<u32>
        ensures { result ≡ slice_get (stop_of self.now.state).registered 0 }
    {
        self.state.first_registered()
    }
}

impl<C: Drop> Machine<StopMachine> for StopRegistry<C> {
    ghost use Rattle.std.specs.Prelude.{refl};
    ghost use Rattle.cx_machine.specs.States.{stop_of};
    ghost use Rattle.cx_machine.specs.Values.{Ready};
    ghost use Rattle.cx_machine.specs.Callbacks.{stop_lives_on, stop_most_holds};

    type Hand = C;

    ghost meaning = { λ s. stop_of s.state };

    ghost spare = { λ s. s.state.room };

    ghost ready = { λ s h e. Ready h e.op e.reply };

    ghost moves = { λ s h e t k. Moves s.values.items h e.op (small_of e.a) e.reply t.values.items k };

    ghost alike = { λ s t. (stop_of s.state ≡ stop_of t.state) × (s.values.items ≡ t.values.items) };

    fn reply(&self, by: ThreadNo, op: Op, a: i64, b: i64) -> Option<Reply> {
        let state = &self.state;
        match (op, small(a), b) {
            (Op::Request, Some(0), 0) => (!state.is_requested()).then_some(Reply::Ok),
            (Op::Another, Some(0), 0) => state.can_add().then_some(Reply::Ok),
            (Op::Drop, Some(0), 0) => (state.sources() > 0).then_some(Reply::Ok),
            (Op::Register, Some(id), 0) => state.can_register(by, id).then_some(Reply::Ok),
            (Op::RegisterNow, Some(id), 0) => state.can_register_now(by, id).then_some(Reply::Ok),
            (Op::Begin, Some(id), 0) => state.can_begin(by, id).then_some(Reply::Ok),
            (Op::Finish, Some(id), 0) => state.can_finish(by, id).then_some(Reply::Ok),
            (Op::Deregister, Some(id), 0) => state.deregistered(by, id),
            _ => None,
        }
    }

    fn show(&self, by: ThreadNo, op: Op, a: i64, b: i64) -> Option<Reply> {
        let state = &self.state;
        match (op, small(a), b) {
            (Op::Already, Some(0), 0) => state.is_requested().then_some(Reply::Ok),
            (Op::StopRequested, Some(0), 0) => Some(truth(state.is_requested())),
            (Op::StopPossible, Some(0), 0) => Some(truth(state.is_possible())),
            (Op::Never, Some(id), 0) => state.is_never(by, id).then_some(Reply::Ok),
            (Op::Drained, Some(0), 0) => state.is_drained().then_some(Reply::Ok),
            _ => None,
        }
    }

    fn make(&mut self, e: &Entry, hand: &mut Option<C>) {
        move_value(&mut self.values, hand, e);
        self.state.make(e);
    }

    fn reserve(&mut self, n: u32) -> Result<(), NoMemory> {
        let n = n as usize;
        if self.state.room() < n {
            self.values.reserve(self.state.unregistered() + n)?;
            self.state.make_room(n)?;
        }
        Ok(())
    }

    fn most(&self, seats: u32) -> u32 {
        seats * 4096
    }

    fn pool(&self) -> u32 {
        self.state.sources()
    }

    fn debt(&self) -> u32 {
        self.state.debt()
    }

    ghost lives_on = { stop_lives_on };

    ghost most_stays = { λ m n e seats s. refl };

    ghost most_holds = { stop_most_holds };

    ghost once_each = { λ s. s.state.once };
}
