//! Barriers [thread.barrier.class].
ghost use Rattle.std.specs.Prelude.{◌≡◌};
ghost use Rattle.cx_cell.specs.Cells.{cell_start};
ghost use Rattle.cx_barrier.specs.Kinds.{kept};

use crate::pass::BarrierPass;
use cx_cell::Cell;
use cx_machine::{BarrierMachine, BarrierState};
use cx_names::NoMemory;
use std::alloc::Global;

/// A barrier: phases, each of which ends once as many arrivals came as it expects.
#[derive(Drop)]
pub struct Barrier {
    pub(crate) cell: Cell<BarrierMachine, BarrierState>,
    ghost opened: { (cell_start kept cell).phase ≡ 0 },
}

impl Barrier {
    ghost use Rattle.std.specs.Prelude.{◌≡◌, ◌+◌, ◌<◌, ◌≤◌, ◌^◌, ℕ, None, IfOk};
    ghost use Rattle.cx_machine.specs.Barrier as machine;
    ghost use Rattle.cx_turn.specs.declared.view.View.{View};
    ghost use Rattle.cx_turn.specs.Views.{opening_view, split_left, split_right, both_of, having_met};
    ghost use Rattle.cx_barrier.specs.Barriers.{IsBarrierPass, IsBarrierPassWith, barrier_seats, KeepsCompleting};

    /// A barrier whose phases expect this many arrivals, for at most `seats` passes and `calls` changes,
    /// and its first pass.
    pub fn new(
        alloc: Global,
        count: u32,
        seats: u32,
        calls: u32,
    ) -> Result<(Barrier, BarrierPass), NoMemory>
        requires count { (1 ≤ count) × (count ≤ 4096) }
        requires seats { (1 ≤ seats) × (seats ≤ 256) }
        requires calls { calls < 2 ^ 28 }
        ensures seats { IfOk result (λ t. barrier_seats t.0 ≡ seats) }
        ensures pass { IfOk result (λ t. IsBarrierPassWith t.0 t.1 (opening_view (machine.opening count) seats calls 0)) }
    {
        let (cell, pass) = Cell::new(alloc, BarrierState::new(count), seats, calls)?;
        Ok((Barrier { cell }, BarrierPass { pass, phase: None }))
    }

    /// Splits a new pass off the first one, with `calls` of its changes and the next number. It has made
    /// no arrival.
    pub fn split(&self, first: &mut BarrierPass, calls: u32) -> BarrierPass
        requires pass { IsBarrierPass self.now first.old }
        requires first { first.old.pass.number.0 ≡ 0 }
        requires seats { first.old.pass.splits + 1 < barrier_seats self.now }
        requires calls { calls ≤ first.old.pass.left }
        ensures first { (v : View machine.Barrier) → IsBarrierPassWith self.now first.old v → IsBarrierPassWith self.now first.new (split_left v calls) }
        ensures second { (v : View machine.Barrier) → IsBarrierPassWith self.now first.old v → IsBarrierPassWith self.now result (split_right v calls) }
        ensures phase { (first.new.phase ≡ first.old.phase) × (result.phase ≡ None) }
        ensures completing { KeepsCompleting self.now first.old first.new }
    {
        BarrierPass {
            pass: self.cell.split(&mut first.pass, calls),
            phase: None,
        }
    }

    /// Takes another pass in: the pass gets what it has left and has seen. A phase that the pass is to
    /// complete stays so.
    pub fn join(&self, pass: &mut BarrierPass, other: BarrierPass)
        requires pass { IsBarrierPass self.now pass.old }
        requires other { IsBarrierPass self.now other }
        ensures seen { (v w : View machine.Barrier) → IsBarrierPassWith self.now pass.old v → IsBarrierPassWith self.now other w → IsBarrierPassWith self.now pass.new (both_of v w) }
        ensures phase { pass.new.phase ≡ pass.old.phase }
        ensures completing { KeepsCompleting self.now pass.old pass.new }
    {
        self.cell.join(&mut pass.pass, other.pass);
    }

    /// Lets `to` see what `from` has seen. Phases that they are to complete stay so.
    pub fn meet(&self, from: &mut BarrierPass, to: &mut BarrierPass)
        requires from { IsBarrierPass self.now from.old }
        requires to { IsBarrierPass self.now to.old }
        ensures from { (v : View machine.Barrier) → IsBarrierPassWith self.now from.old v → IsBarrierPassWith self.now from.new v }
        ensures to { (v w : View machine.Barrier) → IsBarrierPassWith self.now from.old v → IsBarrierPassWith self.now to.old w → IsBarrierPassWith self.now to.new (having_met w v) }
        ensures phases { (from.new.phase ≡ from.old.phase) × (to.new.phase ≡ to.old.phase) }
        ensures from_completing { KeepsCompleting self.now from.old from.new }
        ensures to_completing { KeepsCompleting self.now to.old to.new }
    {
        self.cell.meet(&mut from.pass, &mut to.pass);
    }
}
