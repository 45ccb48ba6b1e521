//! Recursive mutexes [thread.mutex.recursive].
ghost use Rattle.std.specs.Prelude.{◌≡◌, true};
ghost use Rattle.cx_machine.specs.Mutex.{opening};
ghost use Rattle.cx_cell.specs.Cells.{cell_start};
ghost use Rattle.cx_mutex.specs.Kinds.{kept};

use crate::mutex::{MutexPass, Tried};
use cx_cell::Cell;
use cx_machine::{MutexMachine, MutexState, Op};
use cx_names::{NoMemory, ThreadNo};
use cx_turn::Either;
use std::alloc::Global;
use std::sync::Wait;

/// A mutex that its owner may lock again, up to 1,000 times.
#[derive(Drop)]
pub struct RecursiveMutex {
    pub(crate) cell: Cell<MutexMachine, MutexState>,
    ghost opened: { cell_start kept cell ≡ opening true 0 },
}

/// One time that its owner locked a recursive mutex. It is given back by `unlock`.
#[derive(Drop, Debug, PartialEq, Eq)]
pub struct Level {
    pub(crate) by: ThreadNo,
}

/// The owner has 1,000 levels after the first `at` changes, and gets no more.
#[derive(Clone, Copy, Debug, PartialEq, Eq)]
pub struct MaxLevels {
    pub at: u32,
}

impl RecursiveMutex {
    ghost use Rattle.std.specs.Prelude.{◌≡◌, ◌+◌, ◌<◌, ◌≤◌, ◌^◌, ℕ, pos, true, IfOk, IfErr};
    ghost use Rattle.cx_names.specs.declared.Reply.TheVariants as replies;
    ghost use Rattle.cx_machine.specs.declared.kind.Op.TheVariants as ops;
    ghost use Rattle.cx_machine.specs.Meaning.{change, look_of};
    ghost use Rattle.cx_machine.specs.Mutex as machine;
    ghost use Rattle.cx_turn.specs.declared.view.View.{View};
    ghost use Rattle.cx_turn.specs.Views.{opening_view, split_left, split_right, both_of, having_met};
    ghost use Rattle.cx_mutex.specs.Recursives.{IsRecursivePass, IsRecursivePassWith, recursive_seats, HasLevels, IsLevelOf, KeepsLevels, GetsLevel, LosesLevel, RecursiveMakes, RecursiveLooks, TriesLevel};

    /// A recursive mutex that nobody owns, for at most `seats` passes and `calls` changes, and its first
    /// pass.
    pub fn new(
        alloc: Global,
        seats: u32,
        calls: u32,
    ) -> Result<(RecursiveMutex, MutexPass), NoMemory>
        requires seats { (1 ≤ seats) × (seats ≤ 256) }
        requires calls { calls < 2 ^ 28 }
        ensures seats { IfOk result (λ t. recursive_seats t.0 ≡ seats) }
        ensures pass { IfOk result (λ t. IsRecursivePassWith t.0 t.1 (opening_view (machine.opening true 0) seats calls 0)) }
        ensures levels { IfOk result (λ t. HasLevels t.0 t.1 0) }
    {
        let state = MutexState::new(alloc, true, 0)?;
        let (cell, pass) = Cell::new(alloc, state, seats, calls)?;
        Ok((RecursiveMutex { cell }, pass))
    }

    /// Waits until no other thread owns the mutex, and locks it once more. MaxLevels exactly where the
    /// pass's thread has 1,000 levels.
    pub fn lock<R: Wait>(&self, rt: &R, pass: &mut MutexPass) -> Result<(Level, u32), MaxLevels>
        requires pass { IsRecursivePass self.now pass.old }
        requires left { 1 ≤ pass.old.left }
        ensures idle { IsRecursivePass self.now pass.new }
        ensures left { pass.old.left ≤ pass.new.left + 1 }
        ensures level { IfOk result (λ t. IsLevelOf self.now pass.new t.0) }
        ensures more { IfOk result (λ t. GetsLevel self.now pass.old pass.new) }
        ensures made { IfOk result (λ t. RecursiveMakes self.now pass.old pass.new (change pass.old.number ops.Lock (pos 0) (pos 0) replies.Ok) t.1) }
        ensures most { IfErr result (λ m. RecursiveLooks self.now pass.old pass.new (look_of pass.old.number ops.Lock (pos 0) (pos 0) replies.MaxLevels m.at)) }
        ensures same { IfErr result (λ m. KeepsLevels self.now pass.old pass.new) }
    {
        match self.cell.wait_either(rt, pass, Op::Lock, Op::Lock) {
            Either::Made(_, at) => Ok((Level { by: pass.number() }, at)),
            Either::Seen(_, at) => Err(MaxLevels { at }),
        }
    }

    /// Locks the mutex once more if no other thread owns it and the pass's thread has fewer than 1,000
    /// levels. Else Not.
    pub fn try_lock<R: Wait>(&self, rt: &R, pass: &mut MutexPass) -> Tried<Level>
        requires pass { IsRecursivePass self.now pass.old }
        requires left { 1 ≤ pass.old.left }
        ensures idle { IsRecursivePass self.now pass.new }
        ensures left { pass.old.left ≤ pass.new.left + 1 }
        ensures tried { TriesLevel self.now pass.old pass.new result }
    {
        match self
            .cell
            .try_either(rt, pass, Op::TryLock, Op::TryLock, 0, 0)
        {
            Some(done) => match done {
                Either::Made(_, at) => Tried::Got(Level { by: pass.number() }, at),
                Either::Seen(_, at) => Tried::Not(at),
            },
            None => unreachable!(),
        }
    }

    /// Gives one level back, and gives the position. With its last level a thread unlocks the mutex.
    pub fn unlock<R: Wait>(&self, rt: &R, pass: &mut MutexPass, level: Level) -> u32
        requires pass { IsRecursivePass self.now pass.old }
        requires left { 1 ≤ pass.old.left }
        requires level { IsLevelOf self.now pass.old level }
        ensures idle { IsRecursivePass self.now pass.new }
        ensures left { pass.new.left + 1 ≡ pass.old.left }
        ensures less { LosesLevel self.now pass.old pass.new }
        ensures made { RecursiveMakes self.now pass.old pass.new (change pass.old.number ops.Unlock (pos 0) (pos 0) replies.Ok) result }
    {
        let _ = level;
        let (_, at) = self.cell.wait_change(rt, pass, Op::Unlock, 0, 0);
        at
    }

    /// Splits a new pass off the first one, with `calls` of its changes and the next number. It has no
    /// level.
    pub fn split(&self, first: &mut MutexPass, calls: u32) -> MutexPass
        requires pass { IsRecursivePass self.now first.old }
        requires first { first.old.number.0 ≡ 0 }
        requires seats { first.old.splits + 1 < recursive_seats self.now }
        requires calls { calls ≤ first.old.left }
        ensures first { (v : View machine.Mutex) → IsRecursivePassWith self.now first.old v → IsRecursivePassWith self.now first.new (split_left v calls) }
        ensures second { (v : View machine.Mutex) → IsRecursivePassWith self.now first.old v → IsRecursivePassWith self.now result (split_right v calls) }
        ensures same { KeepsLevels self.now first.old first.new }
        ensures none { HasLevels self.now result 0 }
    {
        self.cell.split(first, calls)
    }

    /// Takes another pass in: the pass gets what it has left and has seen. A level of the pass stays one.
    pub fn join(&self, pass: &mut MutexPass, other: MutexPass)
        requires pass { IsRecursivePass self.now pass.old }
        requires other { IsRecursivePass self.now other }
        ensures seen { (v w : View machine.Mutex) → IsRecursivePassWith self.now pass.old v → IsRecursivePassWith self.now other w → IsRecursivePassWith self.now pass.new (both_of v w) }
        ensures same { KeepsLevels self.now pass.old pass.new }
    {
        self.cell.join(pass, other);
    }

    /// Lets `to` see what `from` has seen. Their levels stay levels.
    pub fn meet(&self, from: &mut MutexPass, to: &mut MutexPass)
        requires from { IsRecursivePass self.now from.old }
        requires to { IsRecursivePass self.now to.old }
        ensures from { (v : View machine.Mutex) → IsRecursivePassWith self.now from.old v → IsRecursivePassWith self.now from.new v }
        ensures to { (v w : View machine.Mutex) → IsRecursivePassWith self.now from.old v → IsRecursivePassWith self.now to.old w → IsRecursivePassWith self.now to.new (having_met w v) }
        ensures same { KeepsLevels self.now from.old from.new }
        ensures to_same { KeepsLevels self.now to.old to.new }
    {
        self.cell.meet(from, to);
    }
}
