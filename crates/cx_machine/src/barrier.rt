use crate::kind::{Entry, Op};
use crate::machine::{Machine, Meaning};
use crate::number::small;
use cx_names::{NoMemory, Reply, ThreadNo};
use std::marker::Model;

/// The state of a barrier [thread.barrier.class].
#[derive(Drop)]
pub struct BarrierState {
    phase: u32,
    remaining: u32,
    initial: u32,
    completing: Option<ThreadNo>,
}

impl Model for BarrierState {
    ghost use Rattle.cx_machine.specs.Barrier.{Barrier};
    ghost use Rattle.cx_machine.specs.Words.{thread_number};

    ghost Value = { Barrier };

    ghost view = { λ b. record { phase = b.phase; remaining = b.remaining; initial = b.initial; completing = thread_number b.completing } };
}

impl BarrierState {
    ghost use Rattle.std.specs.Prelude.{◌≡◌, ◌&&◌, ◌^◌, ◌-◌, pos, nat_le, nat_lt, is_some};
    ghost use Rattle.cx_names.specs.Replies.{int_eq};
    ghost use Rattle.cx_machine.specs.Words.{when, is_thread, Applies};
    ghost use Rattle.cx_machine.specs.Barrier.{opening, can_arrive, arrived, dropped, completed, step, shows};

    /// A barrier whose phases expect this number of arrivals.
    pub fn new(count: u32) -> BarrierState
        ensures { result ≡ opening count }
    {
        BarrierState {
            phase: 0,
            remaining: count,
            initial: count,
            completing: None,
        }
    }

    /// The number of the phase, from 0 on.
    pub fn phase(&self) -> u32
        ensures { result ≡ self.now.phase }
    {
        self.phase
    }

    /// Whether a thread is to complete the phase.
    pub fn is_completing(&self) -> bool
        ensures { result ≡ is_some self.now.completing }
    {
        self.completing.is_some()
    }

    fn can_arrive(&self, n: u32) -> bool
        ensures { result ≡ can_arrive self.now n }
    {
        match self.completing {
            None => n <= self.remaining,
            Some(_) => false,
        }
    }

    fn completes(&self, by: ThreadNo) -> bool
        ensures { result ≡ is_thread self.now.completing by.0 }
    {
        match self.completing {
            None => false,
            Some(t) => t.0 == by.0,
        }
    }

    fn arrive(&mut self, by: ThreadNo, n: u32, p: i64) -> bool
        ensures { Applies result (when (nat_le 1 n && can_arrive self.old n && int_eq p (pos self.old.phase)) (arrived self.old by.0 n)) self.old self.new }
    {
        let allowed = self.can_arrive_in(n, p);
        if allowed {
            self.remaining = self.remaining.saturating_sub(n);
            self.completing = if self.remaining == 0 { Some(by) } else { None };
        }
        allowed
    }

    fn drop_out(&mut self, by: ThreadNo, p: i64) -> bool
        ensures { Applies result (when (can_arrive self.old 1 && int_eq p (pos self.old.phase)) (dropped self.old by.0)) self.old self.new }
    {
        let allowed = self.can_arrive_in(1, p);
        if allowed {
            self.initial = self.initial.saturating_sub(1);
            self.remaining = self.remaining.saturating_sub(1);
            self.completing = if self.remaining == 0 { Some(by) } else { None };
        }
        allowed
    }

    fn complete(&mut self, by: ThreadNo) -> bool
        ensures { Applies result (when (is_thread self.old.completing by.0 && nat_lt self.old.phase (2 ^ 32 - 1)) (completed self.old)) self.old self.new }
    {
        let allowed = self.can_complete(by);
        if allowed {
            self.phase += 1;
            self.remaining = self.initial;
            self.completing = None;
        }
        allowed
    }

    fn can_arrive_in(&self, n: u32, p: i64) -> bool
        ensures { result ≡ (nat_le 1 n && can_arrive self.now n && int_eq p (pos self.now.phase)) }
    {
        n >= 1 && self.can_arrive(n) && p == self.phase as i64
    }

    fn can_complete(&self, by: ThreadNo) -> bool
        ensures { result ≡ (is_thread self.now.completing by.0 && nat_lt self.now.phase (2 ^ 32 - 1)) }
    {
        self.completes(by) && self.phase < u32::MAX
    }

    /// Whether the change is enabled now, so that `apply` would make it. Nothing is changed.
    pub fn enables(&self, by: ThreadNo, op: Op, a: Option<u32>, b: i64, reply: Reply) -> bool
        ensures { result ≡ is_some (step self.now by.0 op a b reply) }
    {
        match (op, a, b, reply) {
            (Op::Arrive, Some(n), 0, Reply::Number(p)) => self.can_arrive_in(n, p),
            (Op::Drop, Some(0), 0, Reply::Number(p)) => self.can_arrive_in(1, p),
            (Op::Complete, Some(0), 0, Reply::Ok) => self.can_complete(by),
            _ => false,
        }
    }

    /// Makes the change where it is enabled, and answers whether it is.
    pub fn apply(&mut self, by: ThreadNo, op: Op, a: Option<u32>, b: i64, reply: Reply) -> bool
        ensures { Applies result (step self.old by.0 op a b reply) self.old self.new }
    {
        match (op, a, b, reply) {
            (Op::Arrive, Some(n), 0, Reply::Number(p)) => self.arrive(by, n, p),
            (Op::Drop, Some(0), 0, Reply::Number(p)) => self.drop_out(by, p),
            (Op::Complete, Some(0), 0, Reply::Ok) => self.complete(by),
            _ => false,
        }
    }

    /// Whether the look is shown.
    pub fn shows(&self, by: ThreadNo, op: Op, a: Option<u32>, b: i64, reply: Reply) -> bool
        ensures { result ≡ shows self.now by.0 op a b reply }
    {
        match (op, a, b, reply) {
            (Op::Arrive, Some(n), 0, Reply::OverExpected) => !self.can_arrive(n),
            (Op::Drop, Some(0), 0, Reply::OverExpected) => !self.can_arrive(1),
            (Op::Wait, Some(p), 0, Reply::Ok) => p < self.phase,
            _ => false,
        }
    }
}

/// What a barrier is, by the standard. No value of it is made.
#[derive(Drop)]
pub struct BarrierMachine;

impl Model for BarrierMachine {
    ghost use Rattle.cx_machine.specs.Barrier.{Barrier, opening};

    ghost Value = { Barrier };

    ghost view = { λ _. opening 0 };
}

impl Meaning for BarrierMachine {
    ghost use Rattle.std.specs.Prelude.{[]};
    ghost use Rattle.cx_machine.specs.Acts.{at_entry, at_look};
    ghost use Rattle.cx_machine.specs.Barrier.{Barrier, opening, step, shows};

    ghost step = { at_entry step };

    ghost shows = { at_look shows };

    ghost members = { λ _. [] };

    ghost most = { λ _ _. 0 };

    ghost any = { opening 0 };
}

impl Machine<BarrierMachine> for BarrierState {
    ghost use Rattle.std.specs.Prelude.{◌≡◌, ◌^◌, refl};
    ghost use Rattle.std.proofs.Common.{rules};

    type Hand = ();

    ghost meaning = { λ s. s };

    ghost spare = { λ _. 2 ^ 32 };

    ghost moves = { λ s h e t k. h ≡ k };

    ghost alike = { λ s t. s ≡ t };

    fn reply(&self, by: ThreadNo, op: Op, a: i64, b: i64) -> Option<Reply> {
        match (op, small(a), b) {
            (Op::Arrive, Some(n), 0) => (n >= 1 && self.can_arrive(n)).then_some(Reply::Number(
                self.phase as i64,
            )),
            (Op::Drop, Some(0), 0) => self
                .can_arrive(1)
                .then_some(Reply::Number(self.phase as i64)),
            (Op::Complete, Some(0), 0) => self.can_complete(by).then_some(Reply::Ok),
            _ => None,
        }
    }

    fn show(&self, _by: ThreadNo, op: Op, a: i64, b: i64) -> Option<Reply> {
        match (op, small(a), b) {
            (Op::Arrive, Some(n), 0) => (!self.can_arrive(n)).then_some(Reply::OverExpected),
            (Op::Drop, Some(0), 0) => (!self.can_arrive(1)).then_some(Reply::OverExpected),
            (Op::Wait, Some(p), 0) => (p < self.phase).then_some(Reply::Ok),
            _ => None,
        }
    }

    fn make(&mut self, e: &Entry, _hand: &mut Option<()>) {
        let _made = self.apply(e.by, e.op, small(e.a), e.b, e.reply);
    }

    fn reserve(&mut self, _n: u32) -> Result<(), NoMemory> {
        Ok(())
    }

    fn most(&self, _seats: u32) -> u32 {
        0
    }

    fn pool(&self) -> u32 {
        0
    }

    fn debt(&self) -> u32 {
        0
    }

    ghost lives_on = { λ m n e id s. Prim.search rules };

    ghost most_stays = { λ m n e seats s. refl };

    ghost most_holds = { λ m n seats es none below s. Prim.search rules };

    ghost once_each = { λ s id. Prim.search rules };
}
