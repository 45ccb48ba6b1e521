//! Counting semaphores [thread.sema.cnt].
use cx_cell::Cell;
use cx_machine::{Op, SemaphoreMachine, SemaphoreState};
use cx_names::NoMemory;
use cx_turn::{Either, Pass};
use std::alloc::Global;
use std::sync::Wait;

/// A caller's token on one semaphore.
pub type SemaphorePass = Pass<SemaphoreMachine>;

/// A counting semaphore: its counter never exceeds its greatest value.
#[derive(Drop)]
pub struct Semaphore {
    pub(crate) cell: Cell<SemaphoreMachine, SemaphoreState>,
}

/// A release was refused: the counter would exceed its greatest value after the first `at` changes.
#[derive(Clone, Copy, Debug, PartialEq, Eq)]
pub struct Over {
    pub at: u32,
}

/// What an attempt to acquire came to.
#[derive(Clone, Copy, Debug, PartialEq, Eq)]
pub enum Taking {
    /// It acquired, at this position.
    Taken(u32),
    /// The counter was 0 after this many changes.
    Zero(u32),
    /// The word of the semaphore changed meanwhile. No semaphore on a cell answers so.
    Again { saw: u64, found: u64 },
}

impl Semaphore {
    ghost use Rattle.std.specs.Prelude.{◌≡◌, ◌+◌, ◌<◌, ◌≤◌, ◌^◌, ℕ, pos, IfOk, IfErr};
    ghost use Rattle.cx_names.specs.declared.Reply.TheVariants as replies;
    ghost use Rattle.cx_machine.specs.declared.kind.Op.TheVariants as ops;
    ghost use Rattle.cx_machine.specs.Meaning.{change, look_of};
    ghost use Rattle.cx_machine.specs.Semaphore.{opening};
    ghost use Rattle.cx_machine.specs.Semaphore as semaphore;
    ghost use Rattle.cx_turn.specs.declared.view.View.{View};
    ghost use Rattle.cx_turn.specs.Views.{opening_view, split_left, split_right, both_of, having_met};
    ghost use Rattle.cx_sync.specs.Sync.{IsSemaphorePass, IsSemaphorePassWith, semaphore_seats, SemaphoreMakes, SemaphoreLooks};
    ghost use Rattle.cx_sync.specs.Takes.{Takes, cost_of};

    /// A semaphore with this counter and this greatest value, for at most `seats` passes and `calls`
    /// changes, and its first pass.
    pub fn new(
        alloc: Global,
        count: u32,
        max: u32,
        seats: u32,
        calls: u32,
    ) -> Result<(Semaphore, SemaphorePass), NoMemory>
        requires counter { (count ≤ max) × (1 ≤ max) × (max ≤ 65535) }
        requires seats { (1 ≤ seats) × (seats ≤ 256) }
        requires calls { calls < 2 ^ 28 }
        ensures seats { IfOk result (λ t. semaphore_seats t.0 ≡ seats) }
        ensures pass { IfOk result (λ t. IsSemaphorePassWith t.0 t.1 (opening_view (opening count max) seats calls 0)) }
    {
        let (cell, pass) = Cell::new(alloc, SemaphoreState::new(count, max), seats, calls)?;
        Ok((Semaphore { cell }, pass))
    }

    /// Adds `n` to the counter, and gives the position. Over exactly where the counter would exceed its
    /// greatest value: it is then unchanged.
    pub fn release<R: Wait>(&self, rt: &R, pass: &mut SemaphorePass, n: u32) -> Result<u32, Over>
        requires pass { IsSemaphorePass self.now pass.old }
        requires left { 1 ≤ pass.old.left }
        ensures idle { IsSemaphorePass self.now pass.new }
        ensures left { IfOk result (λ _. pass.new.left + 1 ≡ pass.old.left) }
        ensures unspent { IfErr result (λ _. pass.new.left ≡ pass.old.left) }
        ensures released { IfOk result (λ k. SemaphoreMakes self.now pass.old pass.new (change pass.old.number ops.Release (pos n) (pos 0) replies.Ok) k) }
        ensures over { IfErr result (λ o. SemaphoreLooks self.now pass.old pass.new (look_of pass.old.number ops.Release (pos n) (pos 0) replies.Over o.at)) }
    {
        match self
            .cell
            .try_either(rt, pass, Op::Release, Op::Release, n as i64, 0)
        {
            Some(done) => match done {
                Either::Made(_, at) => Ok(at),
                Either::Seen(_, at) => Err(Over { at }),
            },
            None => unreachable!(),
        }
    }

    /// Waits until the counter is above 0, takes one from it, and gives the position.
    pub fn acquire<R: Wait>(&self, rt: &R, pass: &mut SemaphorePass) -> u32
        requires pass { IsSemaphorePass self.now pass.old }
        requires left { 1 ≤ pass.old.left }
        ensures idle { IsSemaphorePass self.now pass.new }
        ensures left { pass.new.left + 1 ≡ pass.old.left }
        ensures made { SemaphoreMakes self.now pass.old pass.new (change pass.old.number ops.Acquire (pos 0) (pos 0) replies.Ok) result }
    {
        let (_, at) = self.cell.wait_change(rt, pass, Op::Acquire, 0, 0);
        at
    }

    /// Takes one from the counter if it is above 0. Zero exactly where it was found to be 0.
    pub fn try_acquire<R: Wait>(&self, rt: &R, pass: &mut SemaphorePass) -> Taking
        requires pass { IsSemaphorePass self.now pass.old }
        requires left { 1 ≤ pass.old.left }
        ensures idle { IsSemaphorePass self.now pass.new }
        ensures left { pass.new.left + cost_of result ≡ pass.old.left }
        ensures taken { Takes self.now pass.old pass.new result }
    {
        match self
            .cell
            .try_either(rt, pass, Op::TryAcquire, Op::TryAcquire, 0, 0)
        {
            Some(done) => match done {
                Either::Made(_, at) => Taking::Taken(at),
                Either::Seen(_, at) => Taking::Zero(at),
            },
            None => unreachable!(),
        }
    }

    /// Splits a new pass off the first one, with `calls` of its changes and the next number.
    pub fn split(&self, first: &mut SemaphorePass, calls: u32) -> SemaphorePass
        requires pass { IsSemaphorePass self.now first.old }
        requires first { first.old.number.0 ≡ 0 }
        requires seats { first.old.splits + 1 < semaphore_seats self.now }
        requires calls { calls ≤ first.old.left }
        ensures first { (v : View semaphore.Semaphore) → IsSemaphorePassWith self.now first.old v → IsSemaphorePassWith self.now first.new (split_left v calls) }
        ensures second { (v : View semaphore.Semaphore) → IsSemaphorePassWith self.now first.old v → IsSemaphorePassWith self.now result (split_right v calls) }
    {
        self.cell.split(first, calls)
    }

    /// Takes another pass in: the pass gets what it has left and has seen.
    pub fn join(&self, pass: &mut SemaphorePass, other: SemaphorePass)
        requires pass { IsSemaphorePass self.now pass.old }
        requires other { IsSemaphorePass self.now other }
        ensures { (v w : View semaphore.Semaphore) → IsSemaphorePassWith self.now pass.old v → IsSemaphorePassWith self.now other w → IsSemaphorePassWith self.now pass.new (both_of v w) }
    {
        self.cell.join(pass, other);
    }

    /// Lets `to` see what `from` has seen.
    pub fn meet(&self, from: &mut SemaphorePass, to: &mut SemaphorePass)
        requires from { IsSemaphorePass self.now from.old }
        requires to { IsSemaphorePass self.now to.old }
        ensures from { (v : View semaphore.Semaphore) → IsSemaphorePassWith self.now from.old v → IsSemaphorePassWith self.now from.new v }
        ensures to { (v w : View semaphore.Semaphore) → IsSemaphorePassWith self.now from.old v → IsSemaphorePassWith self.now to.old w → IsSemaphorePassWith self.now to.new (having_met w v) }
    {
        self.cell.meet(from, to);
    }
}
