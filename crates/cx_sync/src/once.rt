//! Once flags [thread.once].
use cx_cell::Cell;
use cx_machine::{OnceMachine, OnceState, Op};
use cx_names::{NoMemory, ThreadNo};
use cx_turn::{Either, Pass};
use std::alloc::Global;
use std::sync::Wait;

/// A caller's token on one once flag.
pub type OncePass = Pass<OnceMachine>;

/// A once flag: of all executions that begin on it, at most one returns [thread.once.onceflag].
#[derive(Drop)]
pub struct OnceFlag {
    pub(crate) cell: Cell<OnceMachine, OnceState>,
}

/// An active execution of its caller. It is given back by `finish` or `fail`.
#[derive(Drop, Debug, PartialEq, Eq)]
pub struct Active {
    pub(crate) by: ThreadNo,
}

/// What the beginning of an execution came to.
#[derive(Drop, Debug, PartialEq, Eq)]
pub enum Begun {
    /// The execution is active since this position.
    Active(Active, u32),
    /// The execution is passive: another one had returned after this many changes.
    Passive(u32),
}

/// What a call of `call_once` came to.
#[derive(Clone, Copy, Debug, PartialEq, Eq)]
pub enum Once3 {
    /// The function returned. It began and finished at these positions.
    Returned(u32, u32),
    /// The function threw this error. It began and failed at these positions.
    Threw(u32, u32, u32),
    /// The function wasn't called: one had returned after this many changes.
    Passive(u32),
}

impl OnceFlag {
    ghost use Rattle.std.specs.Prelude.{◌≡◌, ◌+◌, ◌<◌, ◌≤◌, ◌^◌, ℕ, pos, IfOk};
    ghost use Rattle.cx_names.specs.declared.Reply.TheVariants as replies;
    ghost use Rattle.cx_machine.specs.declared.kind.Op.TheVariants as ops;
    ghost use Rattle.cx_machine.specs.Meaning.{change};
    ghost use Rattle.cx_machine.specs.Once as once;
    ghost use Rattle.cx_turn.specs.declared.view.View.{View};
    ghost use Rattle.cx_turn.specs.Views.{opening_view, split_left, split_right, both_of, having_met};
    ghost use Rattle.cx_sync.specs.Onces.{IsOncePass, IsOncePassWith, once_seats, IsActive, KeepsActive, MayRun, OnceMakes, Begins, CallsOnce};

    /// A flag on which no execution has begun, for at most `seats` passes and `calls` changes, and its
    /// first pass.
    pub fn new(alloc: Global, seats: u32, calls: u32) -> Result<(OnceFlag, OncePass), NoMemory>
        requires seats { (1 ≤ seats) × (seats ≤ 256) }
        requires calls { calls < 2 ^ 28 }
        ensures seats { IfOk result (λ t. once_seats t.0 ≡ seats) }
        ensures pass { IfOk result (λ t. IsOncePassWith t.0 t.1 (opening_view once.Idle seats calls 0)) }
    {
        let (cell, pass) = Cell::new(alloc, OnceState::new(), seats, calls)?;
        Ok((OnceFlag { cell }, pass))
    }

    /// Waits until no execution is active, and begins one, which is active. It is passive, and no change
    /// is made, exactly where one had returned [thread.once.callonce].
    pub fn begin<R: Wait>(&self, rt: &R, pass: &mut OncePass) -> Begun
        requires pass { IsOncePass self.now pass.old }
        requires left { 1 ≤ pass.old.left }
        ensures idle { IsOncePass self.now pass.new }
        ensures left { pass.old.left ≤ pass.new.left + 1 }
        ensures begun { Begins self.now pass.old pass.new result }
    {
        match self.cell.wait_either(rt, pass, Op::Begin, Op::Passive) {
            Either::Made(_, at) => Begun::Active(Active { by: pass.number() }, at),
            Either::Seen(_, at) => Begun::Passive(at),
        }
    }

    /// The active execution returns, and gives the position. Every later one is passive.
    pub fn finish<R: Wait>(&self, rt: &R, pass: &mut OncePass, active: Active) -> u32
        requires pass { IsOncePass self.now pass.old }
        requires left { 1 ≤ pass.old.left }
        requires active { IsActive self.now pass.old active }
        ensures idle { IsOncePass self.now pass.new }
        ensures left { pass.new.left + 1 ≡ pass.old.left }
        ensures made { OnceMakes self.now pass.old pass.new (change pass.old.number ops.Finish (pos 0) (pos 0) replies.Ok) result }
    {
        let _ = active;
        match self.cell.try_change(rt, pass, Op::Finish, 0, 0) {
            Some((_, at)) => at,
            None => unreachable!(),
        }
    }

    /// The active execution is exceptional: it threw this error. Gives the position. The next one is
    /// active.
    pub fn fail<R: Wait>(&self, rt: &R, pass: &mut OncePass, active: Active, error: u32) -> u32
        requires pass { IsOncePass self.now pass.old }
        requires left { 1 ≤ pass.old.left }
        requires active { IsActive self.now pass.old active }
        ensures idle { IsOncePass self.now pass.new }
        ensures left { pass.new.left + 1 ≡ pass.old.left }
        ensures made { OnceMakes self.now pass.old pass.new (change pass.old.number ops.Fail (pos error) (pos 0) replies.Ok) result }
    {
        let _ = active;
        match self.cell.try_change(rt, pass, Op::Fail, error as i64, 0) {
            Some((_, at)) => at,
            None => unreachable!(),
        }
    }

    /// Waits until no execution is active, and calls the function unless one had returned: Returned where
    /// it returns, Threw where it throws, and Passive exactly where it isn't called. While it runs, the
    /// execution is active, and the flag may be used by all.
    pub fn call_once<R: Wait, F: FnOnce() -> Result<(), u32> + Drop>(
        &self,
        rt: &R,
        pass: &mut OncePass,
        function: F,
    ) -> Once3
        requires pass { IsOncePass self.now pass.old }
        requires left { 2 ≤ pass.old.left }
        requires function { MayRun self.now (F.pre function) }
        ensures idle { IsOncePass self.now pass.new }
        ensures left { pass.old.left ≤ pass.new.left + 2 }
        ensures called { CallsOnce self.now pass.old pass.new (F.post function) result }
    {
        match self.begin(rt, pass) {
            Begun::Active(active, began) => match function() {
                Ok(()) => Once3::Returned(began, self.finish(rt, pass, active)),
                Err(error) => Once3::Threw(error, began, self.fail(rt, pass, active, error)),
            },
            Begun::Passive(at) => Once3::Passive(at),
        }
    }

    /// Splits a new pass off the first one, with `calls` of its changes and the next number.
    pub fn split(&self, first: &mut OncePass, calls: u32) -> OncePass
        requires pass { IsOncePass self.now first.old }
        requires first { first.old.number.0 ≡ 0 }
        requires seats { first.old.splits + 1 < once_seats self.now }
        requires calls { calls ≤ first.old.left }
        ensures first { (v : View once.Once) → IsOncePassWith self.now first.old v → IsOncePassWith self.now first.new (split_left v calls) }
        ensures second { (v : View once.Once) → IsOncePassWith self.now first.old v → IsOncePassWith self.now result (split_right v calls) }
        ensures active { KeepsActive self.now first.old first.new }
    {
        self.cell.split(first, calls)
    }

    /// Takes another pass in: the pass gets what it has left and has seen. An execution of the pass stays
    /// active.
    pub fn join(&self, pass: &mut OncePass, other: OncePass)
        requires pass { IsOncePass self.now pass.old }
        requires other { IsOncePass self.now other }
        ensures seen { (v w : View once.Once) → IsOncePassWith self.now pass.old v → IsOncePassWith self.now other w → IsOncePassWith self.now pass.new (both_of v w) }
        ensures active { KeepsActive self.now pass.old pass.new }
    {
        self.cell.join(pass, other);
    }

    /// Lets `to` see what `from` has seen. Their executions stay active.
    pub fn meet(&self, from: &mut OncePass, to: &mut OncePass)
        requires from { IsOncePass self.now from.old }
        requires to { IsOncePass self.now to.old }
        ensures from { (v : View once.Once) → IsOncePassWith self.now from.old v → IsOncePassWith self.now from.new v }
        ensures to { (v w : View once.Once) → IsOncePassWith self.now from.old v → IsOncePassWith self.now to.old w → IsOncePassWith self.now to.new (having_met w v) }
        ensures from_active { KeepsActive self.now from.old from.new }
        ensures to_active { KeepsActive self.now to.old to.new }
    {
        self.cell.meet(from, to);
    }
}
