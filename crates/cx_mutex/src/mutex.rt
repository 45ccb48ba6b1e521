//! Plain mutexes [thread.mutex.class].
ghost use Rattle.std.specs.Prelude.{◌≡◌, false};
ghost use Rattle.cx_machine.specs.Mutex.{opening};
ghost use Rattle.cx_cell.specs.Cells.{cell_start};
ghost use Rattle.cx_mutex.specs.Kinds.{kept};

use cx_cell::Cell;
use cx_machine::{MutexMachine, MutexState, Op};
use cx_names::{NoMemory, ThreadNo};
use cx_turn::{Either, Pass};
use std::alloc::Global;
use std::sync::Wait;

/// A caller's token on one mutex.
pub type MutexPass = Pass<MutexMachine>;

/// A mutex, with at most one owner.
#[derive(Drop)]
pub struct Mutex {
    pub(crate) cell: Cell<MutexMachine, MutexState>,
    pub(crate) numbers: u8,
    ghost opened: { cell_start kept cell ≡ opening false numbers },
}

/// A mutex that its owner holds. It is given back by `unlock`.
#[derive(Drop, Debug, PartialEq, Eq)]
pub struct Hold {
    pub(crate) by: ThreadNo,
}

/// What an attempt to lock came to.
#[derive(Drop, Debug, PartialEq, Eq)]
pub enum Tried<H> {
    /// It locked, at this position.
    Got(H, u32),
    /// It couldn't be locked after this many changes.
    Not(u32),
}

impl Mutex {
    ghost use Rattle.std.specs.Prelude.{◌≡◌, ◌+◌, ◌<◌, ◌≤◌, ◌^◌, ℕ, pos, IfOk};
    ghost use Rattle.cx_names.specs.declared.Reply.TheVariants as replies;
    ghost use Rattle.cx_machine.specs.declared.kind.Op.TheVariants as ops;
    ghost use Rattle.cx_machine.specs.Meaning.{change};
    ghost use Rattle.cx_machine.specs.Mutex as machine;
    ghost use Rattle.cx_turn.specs.declared.view.View.{View};
    ghost use Rattle.cx_turn.specs.Views.{opening_view, split_left, split_right, both_of, having_met};
    ghost use Rattle.cx_mutex.specs.Mutexes.{IsMutexPass, IsMutexPassWith, IsBare, IsHeldBy, KeepsOwner, mutex_seats, MutexMakes, TriesIt};

    /// A mutex that nobody owns, with this many numbers that are 0, for at most `seats` passes and
    /// `calls` changes, and its first pass.
    pub fn new(
        alloc: Global,
        numbers: u8,
        seats: u32,
        calls: u32,
    ) -> Result<(Mutex, MutexPass), NoMemory>
        requires numbers { numbers ≤ 8 }
        requires seats { (1 ≤ seats) × (seats ≤ 256) }
        requires calls { calls < 2 ^ 28 }
        ensures seats { IfOk result (λ t. mutex_seats t.0 ≡ seats) }
        ensures pass { IfOk result (λ t. IsMutexPassWith t.0 t.1 (opening_view (machine.opening false numbers) seats calls 0)) }
        ensures bare { IfOk result (λ t. IsBare t.0 t.1) }
        ensures numbers { IfOk result (λ t. t.0.numbers ≡ numbers) }
    {
        let state = MutexState::new(alloc, false, numbers)?;
        let (cell, pass) = Cell::new(alloc, state, seats, calls)?;
        Ok((Mutex { cell, numbers }, pass))
    }

    /// Waits until nobody owns the mutex, and locks it. Gives the hold and the position.
    pub fn lock<R: Wait>(&self, rt: &R, pass: &mut MutexPass) -> (Hold, u32)
        requires pass { IsMutexPass self.now pass.old }
        requires left { 1 ≤ pass.old.left }
        requires bare { IsBare self.now pass.old }
        ensures idle { IsMutexPass self.now pass.new }
        ensures left { pass.new.left + 1 ≡ pass.old.left }
        ensures held { IsHeldBy self.now pass.new result.0 }
        ensures made { MutexMakes self.now pass.old pass.new (change pass.old.number ops.Lock (pos 0) (pos 0) replies.Ok) result.1 }
    {
        let (_, at) = self.cell.wait_change(rt, pass, Op::Lock, 0, 0);
        (Hold { by: pass.number() }, at)
    }

    /// Locks the mutex if nobody owns it. Gives Not exactly where another thread was found to own it, and
    /// then no change is used up.
    pub fn try_lock<R: Wait>(&self, rt: &R, pass: &mut MutexPass) -> Tried<Hold>
        requires pass { IsMutexPass self.now pass.old }
        requires left { 1 ≤ pass.old.left }
        requires bare { IsBare self.now pass.old }
        ensures idle { IsMutexPass self.now pass.new }
        ensures tried { TriesIt self.now pass.old pass.new result }
    {
        match self
            .cell
            .try_either(rt, pass, Op::TryLock, Op::TryLock, 0, 0)
        {
            Some(done) => match done {
                Either::Made(_, at) => Tried::Got(Hold { by: pass.number() }, at),
                Either::Seen(_, at) => Tried::Not(at),
            },
            None => unreachable!(),
        }
    }

    /// Unlocks the mutex, and gives the position.
    pub fn unlock<R: Wait>(&self, rt: &R, pass: &mut MutexPass, hold: Hold) -> u32
        requires pass { IsMutexPass self.now pass.old }
        requires left { 1 ≤ pass.old.left }
        requires held { IsHeldBy self.now pass.old hold }
        ensures idle { IsMutexPass self.now pass.new }
        ensures left { pass.new.left + 1 ≡ pass.old.left }
        ensures bare { IsBare self.now pass.new }
        ensures made { MutexMakes self.now pass.old pass.new (change pass.old.number ops.Unlock (pos 0) (pos 0) replies.Ok) result }
    {
        let _ = hold;
        let (_, at) = self.cell.wait_change(rt, pass, Op::Unlock, 0, 0);
        at
    }

    /// Splits a new pass off the first one, with `calls` of its changes and the next number. It doesn't
    /// own the mutex.
    pub fn split(&self, first: &mut MutexPass, calls: u32) -> MutexPass
        requires pass { IsMutexPass self.now first.old }
        requires first { first.old.number.0 ≡ 0 }
        requires seats { first.old.splits + 1 < mutex_seats self.now }
        requires calls { calls ≤ first.old.left }
        ensures first { (v : View machine.Mutex) → IsMutexPassWith self.now first.old v → IsMutexPassWith self.now first.new (split_left v calls) }
        ensures second { (v : View machine.Mutex) → IsMutexPassWith self.now first.old v → IsMutexPassWith self.now result (split_right v calls) }
        ensures owner { KeepsOwner self.now first.old first.new }
        ensures bare { IsBare self.now result }
    {
        self.cell.split(first, calls)
    }

    /// Takes another pass in: the pass gets what it has left and has seen. A hold of the pass stays one.
    pub fn join(&self, pass: &mut MutexPass, other: MutexPass)
        requires pass { IsMutexPass self.now pass.old }
        requires other { IsMutexPass self.now other }
        ensures seen { (v w : View machine.Mutex) → IsMutexPassWith self.now pass.old v → IsMutexPassWith self.now other w → IsMutexPassWith self.now pass.new (both_of v w) }
        ensures owner { KeepsOwner self.now pass.old pass.new }
    {
        self.cell.join(pass, other);
    }

    /// Lets `to` see what `from` has seen. Their holds stay holds.
    pub fn meet(&self, from: &mut MutexPass, to: &mut MutexPass)
        requires from { IsMutexPass self.now from.old }
        requires to { IsMutexPass self.now to.old }
        ensures from { (v : View machine.Mutex) → IsMutexPassWith self.now from.old v → IsMutexPassWith self.now from.new v }
        ensures to { (v w : View machine.Mutex) → IsMutexPassWith self.now from.old v → IsMutexPassWith self.now to.old w → IsMutexPassWith self.now to.new (having_met w v) }
        ensures from_owner { KeepsOwner self.now from.old from.new }
        ensures to_owner { KeepsOwner self.now to.old to.new }
    {
        self.cell.meet(from, to);
    }
}
