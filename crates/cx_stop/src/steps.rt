//! What a call does while it has the turn.
ghost use Rattle.std.specs.Prelude.{◌≡◌, ◌≤◌, ◌<◌, ℕ, pos, Some, None, IfSome, IfOk, IfErr, IsSome, IfNone, length, true};
ghost use Rattle.cx_names.specs.declared.Reply.TheVariants as replies;
ghost use Rattle.cx_machine.specs.declared.kind.Op.TheVariants as ops;
ghost use Rattle.cx_machine.specs.Meaning.{change};
ghost use Rattle.cx_machine.specs.Stop.{Stop, is_fresh};
ghost use Rattle.cx_stop.specs.Kinds.{means};
ghost use Rattle.cx_turn.specs.declared.view.View.{View};
ghost use Rattle.cx_turn.specs.Views.{Has};
ghost use Rattle.cx_stop.specs.Acts.{act, seen_at, MayMake, IsRequester, Changed, Looked, Passed, MovesNothing, IsAlwaysShown, MayRegister};
ghost use Rattle.cx_stop.specs.Puts.{PutUnder, IsBack, IsWay};
ghost use Rattle.cx_stop.specs.Stops.{IsInner, IsInnerWith};

use crate::action::Action;
use crate::kept::{Joiner, Kept};
use crate::state::StopState;
use cx_machine::{Entry, Machine, Op, StopMachine};
use cx_names::{NoMemory, Reply, ThreadNo};
use cx_turn::Pass;
use std::sync::Wait;

// The change with this word and ID.
pub(crate) fn entry(by: ThreadNo, op: Op, id: u32, reply: Reply) -> Entry
    ensures { result ≡ change by op (pos id) (pos 0) reply }
{
    Entry {
        by,
        op,
        a: id as i64,
        b: 0,
        reply,
    }
}

// Where the callback's joiner stands.
fn place_of(joiners: &[Joiner], id: u32) -> Option<usize>
    ensures { IfSome result (λ i. i < length joiners.now) }
{
    for i in 0..joiners.len() {
        if joiners[i].id == id {
            return Some(i);
        }
    }
    None
}

// Takes out who waits for the callback to finish, where the change ends it.
fn take_joiner<C: Action>(kept: &mut Kept<C>, id: u32, ends: bool) -> Option<ThreadNo>
    ensures { kept.new.at.value.state ≡ kept.old.at.value.state }
{
    if !ends {
        return None;
    }
    let stored = &mut *kept.at;
    match place_of(&stored.joiners, id) {
        Some(i) => Some(stored.joiners.remove(i).seat),
        None => None,
    }
}

// Puts the caller among those who wait. False where there is no memory for it, or another waits for the
// same callback.
fn enter_joiner<C: Action>(kept: &mut Kept<C>, id: u32, seat: ThreadNo) -> bool
    ensures { kept.new.at.value.state ≡ kept.old.at.value.state }
{
    let stored = &mut *kept.at;
    match place_of(&stored.joiners, id) {
        Some(_) => false,
        None => stored.joiners.push(Joiner { id, seat }).is_ok(),
    }
}

// What a registration comes to now.
#[derive(Clone, Copy)]
pub(crate) enum Way {
    Queue,
    Run,
    Never,
}

// What a registration with this ID, which is fresh to the thread, comes to at this state.
fn way_of<C: Action>(kept: &Kept<C>, by: ThreadNo, id: u32) -> Way
    requires fresh { is_fresh (means kept.now) by.0 id ≡ true }
    ensures { IsWay (means kept.now) by.0 id result }
{
    match kept.reply(by, Op::Register, id as i64, 0) {
        Some(_) => Way::Queue,
        None => match kept.reply(by, Op::RegisterNow, id as i64, 0) {
            Some(_) => Way::Run,
            None => Way::Never,
        },
    }
}

/// A callback that was begun: its ID, the position of its begin, and its value.
#[derive(Drop)]
pub struct Begun<C> {
    pub id: u32,
    pub at: u32,
    pub value: C,
}

// A deregistration: its reply and position, and the callback's value where it didn't begin.
#[derive(Drop)]
pub(crate) struct Back<C> {
    pub(crate) reply: Reply,
    pub(crate) at: u32,
    pub(crate) value: Option<C>,
}

/// What came of a registration alone.
#[derive(Drop)]
pub enum Put<C> {
    /// The callback is registered, from this position on.
    Queued(u32),
    /// The stop was requested before: the caller runs it, from this position on.
    Now(u32, C),
    /// No stop was requested and there is no source, seen at this stamp.
    Never(u32, C),
}

impl<C: Action> StopState<C> {
    // Wakes the pass with this number.
    fn rouse(&self, pass: &mut Pass<StopMachine>, joiner: Option<ThreadNo>)
        requires { IsInner self.now pass.old }
        ensures { (v : View Stop) → IsInnerWith self.now pass.old v → IsInnerWith self.now pass.new v }
    {
        if let Some(seat) = joiner {
            if seat.0 < self.turn.seats() {
                self.turn.wake(pass, seat);
            }
        }
    }

    // Makes a change that is open to the pass whatever others do, and gives its position. Where it ends a
    // callback, who waits for that is woken.
    pub(crate) fn make<R: Wait>(
        &self,
        rt: &R,
        pass: &mut Pass<StopMachine>,
        op: Op,
        id: u32,
        ends: bool,
    ) -> u32
        requires pass { IsInner self.now pass.old }
        requires open { (v : View Stop) → IsInnerWith self.now pass.old v → MayMake v (act v.number op id replies.Ok) }
        requires plain { MovesNothing op }
        ensures { (v : View Stop) → IsInnerWith self.now pass.old v → (w : View Stop) × IsInnerWith self.now pass.new w × Changed v w (act v.number op id replies.Ok) result }
    {
        let mut held = self.turn.take(rt, pass);
        let by = held.number();
        let made = held.make(entry(by, op, id, Reply::Ok));
        let joiner = take_joiner(held.state_mut(), id, ends);
        let at = held.leave_with(made);
        self.rouse(pass, joiner);
        at
    }

    // Makes a look that each state shows, with one reply or another.
    pub(crate) fn ask<R: Wait>(&self, rt: &R, pass: &mut Pass<StopMachine>, op: Op) -> (Reply, u32)
        requires pass { IsInner self.now pass.old }
        requires shown { IsAlwaysShown op }
        ensures { (v : View Stop) → IsInnerWith self.now pass.old v → (w : View Stop) × IsInnerWith self.now pass.new w × Looked v w (seen_at v.number op 0 result.0 result.1) }
    {
        let mut held = self.turn.take(rt, pass);
        let by = held.number();
        let Some(reply) = held.state().show(by, op, 0, 0) else {
            unreachable!()
        };
        let at = held.look(op, 0, 0, reply);
        held.leave();
        (reply, at)
    }

    // Requests the stop and gives the position, or sees that it was requested and gives the stamp.
    pub(crate) fn request<R: Wait>(&self, rt: &R, pass: &mut Pass<StopMachine>) -> Result<u32, u32>
        requires pass { IsInner self.now pass.old }
        requires left { 1 ≤ pass.old.left }
        ensures made { IfOk result (λ n. (v : View Stop) → IsInnerWith self.now pass.old v → (w : View Stop) × IsInnerWith self.now pass.new w × Changed v w (act v.number ops.Request 0 replies.Ok) n) }
        ensures already { IfErr result (λ k. (v : View Stop) → IsInnerWith self.now pass.old v → (w : View Stop) × IsInnerWith self.now pass.new w × Looked v w (seen_at v.number ops.Already 0 replies.Ok k)) }
    {
        let mut held = self.turn.take(rt, pass);
        let by = held.number();
        match held.state().reply(by, Op::Request, 0, 0) {
            Some(_) => {
                let made = held.make(entry(by, Op::Request, 0, Reply::Ok));
                Ok(held.leave_with(made))
            }
            None => {
                let at = held.look(Op::Already, 0, 0, Reply::Ok);
                held.leave();
                Err(at)
            }
        }
    }

    // Begins the callback that was registered first, or sees that none is registered and gives the stamp.
    pub(crate) fn begin_first<R: Wait>(
        &self,
        rt: &R,
        pass: &mut Pass<StopMachine>,
    ) -> Result<Begun<C>, u32>
        requires pass { IsInner self.now pass.old }
        requires requester { (v : View Stop) → IsInnerWith self.now pass.old v → IsRequester v }
        ensures begun { IfOk result (λ b. (v : View Stop) → IsInnerWith self.now pass.old v → (w : View Stop) × IsInnerWith self.now pass.new w × Changed v w (act v.number ops.Begin b.id replies.Ok) b.at) }
        ensures value { IfOk result (λ b. C.suits b.value b.id) }
        ensures drained { IfErr result (λ k. (v : View Stop) → IsInnerWith self.now pass.old v → (w : View Stop) × IsInnerWith self.now pass.new w × Looked v w (seen_at v.number ops.Drained 0 replies.Ok k)) }
    {
        let mut held = self.turn.take(rt, pass);
        let by = held.number();
        match held.state().at.state.first_registered() {
            Some(id) => {
                let made = held.make(entry(by, Op::Begin, id, Reply::Ok));
                let Some(value) = held.hand().take() else {
                    unreachable!()
                };
                let at = held.leave_with(made);
                Ok(Begun { id, at, value })
            }
            None => {
                let at = held.look(Op::Drained, 0, 0, Reply::Ok);
                held.leave();
                Err(at)
            }
        }
    }

    // Registers the callback, or sees that there is nothing to register with.
    pub(crate) fn put<R: Wait>(
        &self,
        rt: &R,
        pass: &mut Pass<StopMachine>,
        id: u32,
        value: C,
    ) -> Result<Put<C>, (NoMemory, C)>
        requires pass { IsInner self.now pass.old }
        requires left { 3 ≤ pass.old.left }
        requires suits { C.suits value id }
        requires fresh { (v : View Stop) → IsInnerWith self.now pass.old v → MayRegister v id }
        ensures put { IfOk result (λ p. (v : View Stop) → IsInnerWith self.now pass.old v → (w : View Stop) × IsInnerWith self.now pass.new w × PutUnder v w id value p) }
        ensures value { IfErr result (λ r. r.1 ≡ value) }
        ensures refused { IfErr result (λ _. (v : View Stop) → IsInnerWith self.now pass.old v → (w : View Stop) × IsInnerWith self.now pass.new w × Passed v w) }
    {
        let mut held = self.turn.take(rt, pass);
        let by = held.number();
        if held.reserve().is_err() {
            held.leave();
            return Err((NoMemory, value));
        }
        match way_of(held.state(), by, id) {
            Way::Queue => {
                *held.hand() = Some(value);
                let made = held.make(entry(by, Op::Register, id, Reply::Ok));
                Ok(Put::Queued(held.leave_with(made)))
            }
            Way::Run => {
                let made = held.make(entry(by, Op::RegisterNow, id, Reply::Ok));
                Ok(Put::Now(held.leave_with(made), value))
            }
            Way::Never => {
                let at = held.look(Op::Never, id as i64, 0, Reply::Ok);
                held.leave();
                Ok(Put::Never(at, value))
            }
        }
    }

    // Deregisters the callback, where no other thread runs it. Else the caller waits for its finish among
    // the joiners; says whether it does.
    pub(crate) fn try_back<R: Wait>(
        &self,
        rt: &R,
        pass: &mut Pass<StopMachine>,
        id: u32,
    ) -> Result<Back<C>, bool>
        requires pass { IsInner self.now pass.old }
        requires left { 1 ≤ pass.old.left }
        requires holds { (v : View Stop) → IsInnerWith self.now pass.old v → Has v.holds (Some id) }
        ensures back { IfOk result (λ b. (v : View Stop) → IsInnerWith self.now pass.old v → (w : View Stop) × IsInnerWith self.now pass.new w × Changed v w (act v.number ops.Deregister id b.reply) b.at) }
        ensures value { IfOk result (λ b. IsBack C.suits id b) }
        ensures none { IfErr result (λ _. (v : View Stop) → IsInnerWith self.now pass.old v → (w : View Stop) × IsInnerWith self.now pass.new w × Passed v w) }
    {
        let mut held = self.turn.take(rt, pass);
        let by = held.number();
        match held.state().reply(by, Op::Deregister, id as i64, 0) {
            Some(reply) => {
                let made = held.make(entry(by, Op::Deregister, id, reply));
                let value = held.hand().take();
                let at = held.leave_with(made);
                Ok(Back { reply, at, value })
            }
            None => {
                let waits = enter_joiner(held.state_mut(), id, by);
                held.leave();
                Err(waits)
            }
        }
    }
}
