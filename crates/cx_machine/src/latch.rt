use crate::kind::{Entry, Op};
use crate::machine::{Machine, Meaning};
use crate::number::small;
use cx_names::{NoMemory, Reply, ThreadNo};
use std::marker::Model;

/// The state of a latch [thread.latch.class].
#[derive(Drop)]
pub struct LatchState {
    counter: u32,
}

impl Model for LatchState {
    ghost use Rattle.cx_machine.specs.Latch.{Latch};

    ghost Value = { Latch };

    ghost view = { λ l. record { counter = l.counter } };
}

impl LatchState {
    ghost use Rattle.std.specs.Prelude.{◌≡◌, nat_le, is_some};
    ghost use Rattle.cx_machine.specs.Words.{when, Applies};
    ghost use Rattle.cx_machine.specs.Latch.{opening, counted_down, step, shows};

    /// A latch that waits for this count.
    pub fn new(count: u32) -> LatchState
        ensures { result ≡ opening count }
    {
        LatchState { counter: count }
    }

    fn count_down(&mut self, n: u32) -> bool
        ensures { Applies result (when (nat_le n self.old.counter) (counted_down self.old n)) self.old self.new }
    {
        let allowed = n <= self.counter;
        if allowed {
            self.counter -= n;
        }
        allowed
    }

    /// Whether the change is enabled now, so that `apply` would make it. Nothing is changed.
    pub fn enables(&self, by: ThreadNo, op: Op, a: Option<u32>, b: i64, reply: Reply) -> bool
        ensures { result ≡ is_some (step self.now by.0 op a b reply) }
    {
        match (op, a, b, reply) {
            (Op::CountDown, Some(n), 0, Reply::Ok) => n <= self.counter,
            _ => false,
        }
    }

    /// Makes the change where it is enabled, and answers whether it is.
    pub fn apply(&mut self, by: ThreadNo, op: Op, a: Option<u32>, b: i64, reply: Reply) -> bool
        ensures { Applies result (step self.old by.0 op a b reply) self.old self.new }
    {
        match (op, a, b, reply) {
            (Op::CountDown, Some(n), 0, Reply::Ok) => self.count_down(n),
            _ => false,
        }
    }

    /// Whether the look is shown.
    pub fn shows(&self, by: ThreadNo, op: Op, a: Option<u32>, b: i64, reply: Reply) -> bool
        ensures { result ≡ shows self.now by.0 op a b reply }
    {
        match (op, a, b, reply) {
            (Op::Wait, Some(0), 0, Reply::Ok) => self.counter == 0,
            (Op::TryWait, Some(0), 0, Reply::True) => self.counter == 0,
            (Op::TryWait, Some(0), 0, Reply::False) => self.counter != 0,
            _ => false,
        }
    }
}

/// What a latch is, by the standard. No value of it is made.
#[derive(Drop)]
pub struct LatchMachine;

impl Model for LatchMachine {
    ghost use Rattle.cx_machine.specs.Latch.{Latch, opening};

    ghost Value = { Latch };

    ghost view = { λ _. opening 0 };
}

impl Meaning for LatchMachine {
    ghost use Rattle.std.specs.Prelude.{[]};
    ghost use Rattle.cx_machine.specs.Acts.{at_entry, at_look};
    ghost use Rattle.cx_machine.specs.Latch.{Latch, opening, step, shows};

    ghost step = { at_entry step };

    ghost shows = { at_look shows };

    ghost members = { λ _. [] };

    ghost most = { λ _ _. 0 };

    ghost pool = { λ l. l.counter };

    ghost any = { opening 0 };
}

impl Machine<LatchMachine> for LatchState {
    ghost use Rattle.std.specs.Prelude.{◌≡◌, ◌^◌, refl};
    ghost use Rattle.std.proofs.Common.{rules};

    type Hand = ();

    ghost meaning = { λ s. s };

    ghost spare = { λ _. 2 ^ 32 };

    ghost moves = { λ s h e t k. h ≡ k };

    ghost alike = { λ s t. s ≡ t };

    fn reply(&self, _by: ThreadNo, op: Op, a: i64, b: i64) -> Option<Reply> {
        match (op, small(a), b) {
            (Op::CountDown, Some(n), 0) => (n <= self.counter).then_some(Reply::Ok),
            _ => None,
        }
    }

    fn show(&self, _by: ThreadNo, op: Op, a: i64, b: i64) -> Option<Reply> {
        match (op, small(a), b) {
            (Op::Wait, Some(0), 0) => (self.counter == 0).then_some(Reply::Ok),
            (Op::TryWait, Some(0), 0) => Some(if self.counter == 0 {
                Reply::True
            } else {
                Reply::False
            }),
            _ => None,
        }
    }

    fn make(&mut self, e: &Entry, _hand: &mut Option<()>) {
        let _made = self.apply(e.by, e.op, small(e.a), e.b, e.reply);
    }

    fn reserve(&mut self, _n: u32) -> Result<(), NoMemory> {
        Ok(())
    }

    fn most(&self, _seats: u32) -> u32 {
        0
    }

    fn pool(&self) -> u32 {
        self.counter
    }

    fn debt(&self) -> u32 {
        0
    }

    ghost lives_on = { λ m n e id s. Prim.search rules };

    ghost most_stays = { λ m n e seats s. refl };

    ghost most_holds = { λ m n seats es none below s. Prim.search rules };

    ghost once_each = { λ s id. Prim.search rules };
}
