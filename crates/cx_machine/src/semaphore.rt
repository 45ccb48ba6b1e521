use crate::kind::{Entry, Op};
use crate::machine::{Machine, Meaning};
use crate::number::small;
use cx_names::{NoMemory, Reply, ThreadNo};
use std::marker::Model;

/// The state of a counting semaphore [thread.sema.cnt].
#[derive(Drop)]
pub struct SemaphoreState {
    counter: u32,
    max: u32,
}

impl Model for SemaphoreState {
    ghost use Rattle.cx_machine.specs.Semaphore.{Semaphore};

    ghost Value = { Semaphore };

    ghost view = { λ s. record { counter = s.counter; max = s.max } };
}

impl SemaphoreState {
    ghost use Rattle.std.specs.Prelude.{◌≡◌, is_some};
    ghost use Rattle.cx_machine.specs.Words.{when, Applies};
    ghost use Rattle.cx_machine.specs.Semaphore.{opening, can_release, released, can_acquire, acquired, step, shows};

    /// A semaphore with this counter and this greatest value.
    pub fn new(count: u32, max: u32) -> SemaphoreState
        ensures { result ≡ opening count max }
    {
        SemaphoreState {
            counter: count,
            max,
        }
    }

    fn can_release(&self, n: u32) -> bool
        ensures { result ≡ can_release self.now n }
    {
        self.counter as u64 + n as u64 <= self.max as u64
    }

    fn release(&mut self, n: u32) -> bool
        ensures { Applies result (when (can_release self.old n) (released self.old n)) self.old self.new }
    {
        let allowed = self.counter as u64 + n as u64 <= self.max as u64;
        if allowed {
            self.counter += n;
        }
        allowed
    }

    fn acquire(&mut self) -> bool
        ensures { Applies result (when (can_acquire self.old) (acquired self.old)) self.old self.new }
    {
        let allowed = self.can_acquire();
        if allowed {
            self.counter -= 1;
        }
        allowed
    }

    fn can_acquire(&self) -> bool
        ensures { result ≡ can_acquire self.now }
    {
        self.counter > 0
    }

    /// Whether the change is enabled now, so that `apply` would make it. Nothing is changed.
    pub fn enables(&self, by: ThreadNo, op: Op, a: Option<u32>, b: i64, reply: Reply) -> bool
        ensures { result ≡ is_some (step self.now by.0 op a b reply) }
    {
        match (op, a, b, reply) {
            (Op::Release, Some(n), 0, Reply::Ok) => self.can_release(n),
            (Op::Acquire, Some(0), 0, Reply::Ok) => self.can_acquire(),
            (Op::TryAcquire, Some(0), 0, Reply::True) => self.can_acquire(),
            _ => false,
        }
    }

    /// Makes the change where it is enabled, and answers whether it is.
    pub fn apply(&mut self, by: ThreadNo, op: Op, a: Option<u32>, b: i64, reply: Reply) -> bool
        ensures { Applies result (step self.old by.0 op a b reply) self.old self.new }
    {
        match (op, a, b, reply) {
            (Op::Release, Some(n), 0, Reply::Ok) => self.release(n),
            (Op::Acquire, Some(0), 0, Reply::Ok) => self.acquire(),
            (Op::TryAcquire, Some(0), 0, Reply::True) => self.acquire(),
            _ => false,
        }
    }

    /// Whether the look is shown.
    pub fn shows(&self, by: ThreadNo, op: Op, a: Option<u32>, b: i64, reply: Reply) -> bool
        ensures { result ≡ shows self.now by.0 op a b reply }
    {
        match (op, a, b, reply) {
            (Op::Release, Some(n), 0, Reply::Over) => !self.can_release(n),
            (Op::TryAcquire, Some(0), 0, Reply::False) => self.counter == 0,
            _ => false,
        }
    }
}

/// What a semaphore is, by the standard. No value of it is made.
#[derive(Drop)]
pub struct SemaphoreMachine;

impl Model for SemaphoreMachine {
    ghost use Rattle.cx_machine.specs.Semaphore.{Semaphore, opening};

    ghost Value = { Semaphore };

    ghost view = { λ _. opening 0 0 };
}

impl Meaning for SemaphoreMachine {
    ghost use Rattle.std.specs.Prelude.{[]};
    ghost use Rattle.cx_machine.specs.Acts.{at_entry, at_look};
    ghost use Rattle.cx_machine.specs.Semaphore.{opening, step, shows};

    ghost step = { at_entry step };

    ghost shows = { at_look shows };

    ghost members = { λ _. [] };

    ghost most = { λ _ _. 0 };

    ghost any = { opening 0 0 };
}

impl Machine<SemaphoreMachine> for SemaphoreState {
    ghost use Rattle.std.specs.Prelude.{◌≡◌, ◌^◌, refl};
    ghost use Rattle.std.proofs.Common.{rules};

    type Hand = ();

    ghost meaning = { λ s. s };

    ghost spare = { λ _. 2 ^ 32 };

    ghost moves = { λ s h e t k. h ≡ k };

    ghost alike = { λ s t. s ≡ t };

    fn reply(&self, _by: ThreadNo, op: Op, a: i64, b: i64) -> Option<Reply> {
        match (op, small(a), b) {
            (Op::Release, Some(n), 0) => self.can_release(n).then_some(Reply::Ok),
            (Op::Acquire, Some(0), 0) => self.can_acquire().then_some(Reply::Ok),
            (Op::TryAcquire, Some(0), 0) => self.can_acquire().then_some(Reply::True),
            _ => None,
        }
    }

    fn show(&self, _by: ThreadNo, op: Op, a: i64, b: i64) -> Option<Reply> {
        match (op, small(a), b) {
            (Op::Release, Some(n), 0) => (!self.can_release(n)).then_some(Reply::Over),
            (Op::TryAcquire, Some(0), 0) => (self.counter == 0).then_some(Reply::False),
            _ => None,
        }
    }

    fn make(&mut self, e: &Entry, _hand: &mut Option<()>) {
        let _made = self.apply(e.by, e.op, small(e.a), e.b, e.reply);
    }

    fn reserve(&mut self, _n: u32) -> Result<(), NoMemory> {
        Ok(())
    }

    fn most(&self, _seats: u32) -> u32 {
        0
    }

    fn pool(&self) -> u32 {
        0
    }

    fn debt(&self) -> u32 {
        0
    }

    ghost lives_on = { λ m n e id s. Prim.search rules };

    ghost most_stays = { λ m n e seats s. refl };

    ghost most_holds = { λ m n seats es none below s. Prim.search rules };

    ghost once_each = { λ s id. Prim.search rules };
}
