//! Condition variables [thread.condition.condvarany], and their passes.
ghost use Rattle.std.specs.Prelude.{◌≡◌};
ghost use Rattle.cx_machine.specs.Condition.{opening};
ghost use Rattle.cx_machine.specs.States.{condition_of};
ghost use Rattle.cx_cell.specs.Cells.{cell_start};

use cx_cell::Cell;
use cx_machine::{ConditionMachine, ConditionState};
use cx_names::NoMemory;
use cx_turn::Pass;
use std::alloc::Global;

/// A caller's token on one condition.
pub type CondPass = Pass<ConditionMachine>;

/// A condition variable, with which a caller can wait over any lock.
#[derive(Drop)]
pub struct CondvarAny {
    pub(crate) cell: Cell<ConditionMachine, ConditionState>,
    ghost opened: { cell_start condition_of cell ≡ opening },
}

impl CondvarAny {
    ghost use Rattle.std.specs.Prelude.{◌≡◌, ◌+◌, ◌<◌, ◌≤◌, ◌^◌, ℕ, IfOk};
    ghost use Rattle.cx_machine.specs.Condition as machine;
    ghost use Rattle.cx_turn.specs.declared.view.View.{View};
    ghost use Rattle.cx_turn.specs.Views.{opening_view, split_left, split_right, both_of, having_met};
    ghost use Rattle.cx_condvar.specs.Condvars.{IsCondPass, IsCondPassWith, IsOut, StaysAsItWas, cond_seats};

    /// A condition for which nobody waits, for at most `seats` passes and `calls` changes, and its first
    /// pass.
    pub fn new(alloc: Global, seats: u32, calls: u32) -> Result<(CondvarAny, CondPass), NoMemory>
        requires seats { (1 ≤ seats) × (seats ≤ 256) }
        requires calls { calls < 2 ^ 28 }
        ensures seats { IfOk result (λ t. cond_seats t.0 ≡ seats) }
        ensures pass { IfOk result (λ t. IsCondPassWith t.0 t.1 (opening_view machine.opening seats calls 0)) }
        ensures out { IfOk result (λ t. IsOut t.0 t.1) }
    {
        let (cell, pass) = Cell::new(alloc, ConditionState::new(alloc), seats, calls)?;
        Ok((CondvarAny { cell }, pass))
    }

    /// Splits a new pass off the first one, with `calls` of its changes and the next number. Its thread
    /// hasn't entered.
    pub fn split(&self, first: &mut CondPass, calls: u32) -> CondPass
        requires pass { IsCondPass self.now first.old }
        requires first { first.old.number.0 ≡ 0 }
        requires seats { first.old.splits + 1 < cond_seats self.now }
        requires calls { calls ≤ first.old.left }
        ensures first { (v : View machine.Condition) → IsCondPassWith self.now first.old v → IsCondPassWith self.now first.new (split_left v calls) }
        ensures second { (v : View machine.Condition) → IsCondPassWith self.now first.old v → IsCondPassWith self.now result (split_right v calls) }
        ensures same { StaysAsItWas self.now first.old first.new }
        ensures out { IsOut self.now result }
    {
        self.cell.split(first, calls)
    }

    /// Takes another pass in: the pass gets what it has left and has seen. Whether its thread has entered
    /// stays as it was.
    pub fn join(&self, pass: &mut CondPass, other: CondPass)
        requires pass { IsCondPass self.now pass.old }
        requires other { IsCondPass self.now other }
        ensures seen { (v w : View machine.Condition) → IsCondPassWith self.now pass.old v → IsCondPassWith self.now other w → IsCondPassWith self.now pass.new (both_of v w) }
        ensures same { StaysAsItWas self.now pass.old pass.new }
    {
        self.cell.join(pass, other);
    }

    /// Lets `to` see what `from` has seen. Whether their threads have entered stays as it was.
    pub fn meet(&self, from: &mut CondPass, to: &mut CondPass)
        requires from { IsCondPass self.now from.old }
        requires to { IsCondPass self.now to.old }
        ensures from { (v : View machine.Condition) → IsCondPassWith self.now from.old v → IsCondPassWith self.now from.new v }
        ensures to { (v w : View machine.Condition) → IsCondPassWith self.now from.old v → IsCondPassWith self.now to.old w → IsCondPassWith self.now to.new (having_met w v) }
        ensures from_same { StaysAsItWas self.now from.old from.new }
        ensures to_same { StaysAsItWas self.now to.old to.new }
    {
        self.cell.meet(from, to);
    }
}
