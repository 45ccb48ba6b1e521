//! Shared mutexes [thread.sharedmutex.class], and their passes.
ghost use Rattle.std.specs.Prelude.{◌≡◌};
ghost use Rattle.cx_machine.specs.Shared.{opening};
ghost use Rattle.cx_machine.specs.States.{shared_of};
ghost use Rattle.cx_cell.specs.Cells.{cell_start};

use cx_cell::Cell;
use cx_machine::{SharedMachine, SharedState};
use cx_names::NoMemory;
use cx_turn::Pass;
use std::alloc::Global;

/// A caller's token on one shared mutex.
pub type SharedPass = Pass<SharedMachine>;

/// A shared mutex: one writer owns it, or any number of readers share it.
#[derive(Drop)]
pub struct SharedMutex {
    pub(crate) cell: Cell<SharedMachine, SharedState>,
    ghost opened: { cell_start shared_of cell ≡ opening },
}

impl SharedMutex {
    ghost use Rattle.std.specs.Prelude.{◌≡◌, ◌+◌, ◌<◌, ◌≤◌, ◌^◌, ℕ, IfOk};
    ghost use Rattle.cx_machine.specs.Shared as machine;
    ghost use Rattle.cx_turn.specs.declared.view.View.{View};
    ghost use Rattle.cx_turn.specs.Views.{opening_view, split_left, split_right, both_of, having_met};
    ghost use Rattle.cx_shared_mutex.specs.SharedMutexes.{IsSharedPass, IsSharedPassWith, IsBare, KeepsOwner, shared_seats};

    /// A shared mutex that nobody owns, for at most `seats` passes and `calls` changes, and its first
    /// pass.
    pub fn new(alloc: Global, seats: u32, calls: u32) -> Result<(SharedMutex, SharedPass), NoMemory>
        requires seats { (1 ≤ seats) × (seats ≤ 256) }
        requires calls { calls < 2 ^ 28 }
        ensures seats { IfOk result (λ t. shared_seats t.0 ≡ seats) }
        ensures pass { IfOk result (λ t. IsSharedPassWith t.0 t.1 (opening_view machine.opening seats calls 0)) }
        ensures bare { IfOk result (λ t. IsBare t.0 t.1) }
    {
        let (cell, pass) = Cell::new(alloc, SharedState::new(alloc), seats, calls)?;
        Ok((SharedMutex { cell }, pass))
    }

    /// Splits a new pass off the first one, with `calls` of its changes and the next number. It owns
    /// nothing.
    pub fn split(&self, first: &mut SharedPass, calls: u32) -> SharedPass
        requires pass { IsSharedPass self.now first.old }
        requires first { first.old.number.0 ≡ 0 }
        requires seats { first.old.splits + 1 < shared_seats self.now }
        requires calls { calls ≤ first.old.left }
        ensures first { (v : View machine.Shared) → IsSharedPassWith self.now first.old v → IsSharedPassWith self.now first.new (split_left v calls) }
        ensures second { (v : View machine.Shared) → IsSharedPassWith self.now first.old v → IsSharedPassWith self.now result (split_right v calls) }
        ensures owner { KeepsOwner self.now first.old first.new }
        ensures bare { IsBare self.now result }
    {
        self.cell.split(first, calls)
    }

    /// Takes another pass in: the pass gets what it has left and has seen. What the pass holds it still
    /// holds.
    pub fn join(&self, pass: &mut SharedPass, other: SharedPass)
        requires pass { IsSharedPass self.now pass.old }
        requires other { IsSharedPass self.now other }
        ensures seen { (v w : View machine.Shared) → IsSharedPassWith self.now pass.old v → IsSharedPassWith self.now other w → IsSharedPassWith self.now pass.new (both_of v w) }
        ensures owner { KeepsOwner self.now pass.old pass.new }
    {
        self.cell.join(pass, other);
    }

    /// Lets `to` see what `from` has seen. What they hold they still hold.
    pub fn meet(&self, from: &mut SharedPass, to: &mut SharedPass)
        requires from { IsSharedPass self.now from.old }
        requires to { IsSharedPass self.now to.old }
        ensures from { (v : View machine.Shared) → IsSharedPassWith self.now from.old v → IsSharedPassWith self.now from.new v }
        ensures to { (v w : View machine.Shared) → IsSharedPassWith self.now from.old v → IsSharedPassWith self.now to.old w → IsSharedPassWith self.now to.new (having_met w v) }
        ensures from_owner { KeepsOwner self.now from.old from.new }
        ensures to_owner { KeepsOwner self.now to.old to.new }
    {
        self.cell.meet(from, to);
    }
}
