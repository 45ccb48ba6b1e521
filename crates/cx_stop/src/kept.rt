//! A stop state with those who wait for callbacks to finish.
ghost use Rattle.std.specs.Prelude.{◌≡◌};
ghost use Rattle.cx_machine.specs.Callbacks.{stop_lives_on, stop_most_holds};
ghost use Rattle.cx_machine.specs.Registries.{registry_of};
ghost use Rattle.cx_machine.specs.Values.{Ready, Moves};
ghost use Rattle.cx_machine.specs.Words.{small_of};
ghost use Rattle.cx_stop.specs.Values.{AllSuit};

use crate::action::Action;
use cx_machine::{Entry, Machine, Op, StopMachine, StopRegistry};
use cx_names::{NoMemory, Reply, ThreadNo};

/// A caller that waits until a callback has finished.
#[derive(Clone, Copy)]
pub struct Joiner {
    pub id: u32,
    pub seat: ThreadNo,
}

/// A state, and beside it those who wait for callbacks to finish.
#[derive(Drop)]
pub struct Stored<C: Action> {
    pub state: StopRegistry<C>,
    pub joiners: Vec<Joiner>,
}

/// A state with those who wait, behind one pointer. It means what the state means.
#[derive(Drop)]
pub struct Kept<C: Action> {
    pub at: Box<Stored<C>>,
}

impl<C: Action> Machine<StopMachine> for Kept<C> {
    ghost use Rattle.std.specs.Prelude.{refl};

    type Hand = C;

    ghost meaning = { λ q. registry_of q.at.value.state };

    ghost spare = { λ q. q.at.value.state.state.room };

    ghost fits = { λ q. AllSuit C.suits q.at.value.state.values.items };

    ghost ready = { λ q h e. Ready h e.op e.reply };

    ghost moves = { λ q h e r k. Moves q.at.value.state.values.items h e.op (small_of e.a) e.reply r.at.value.state.values.items k };

    ghost alike = { λ q r. (registry_of q.at.value.state ≡ registry_of r.at.value.state) × (q.at.value.state.values.items ≡ r.at.value.state.values.items) };

    fn reply(&self, by: ThreadNo, op: Op, a: i64, b: i64) -> Option<Reply> {
        self.at.state.reply(by, op, a, b)
    }

    fn show(&self, by: ThreadNo, op: Op, a: i64, b: i64) -> Option<Reply> {
        self.at.state.show(by, op, a, b)
    }

    fn make(&mut self, e: &Entry, hand: &mut Option<C>) {
        self.at.state.make(e, hand);
    }

    fn reserve(&mut self, n: u32) -> Result<(), NoMemory> {
        self.at.state.reserve(n)
    }

    fn most(&self, seats: u32) -> u32 {
        self.at.state.most(seats)
    }

    fn pool(&self) -> u32 {
        self.at.state.pool()
    }

    fn debt(&self) -> u32 {
        self.at.state.debt()
    }

    ghost lives_on = { stop_lives_on };

    ghost most_stays = { λ m n e seats s. refl };

    ghost most_holds = { stop_most_holds };

    ghost once_each = { λ q. q.at.value.state.state.once };
}
