//! The stop state.
ghost use Rattle.std.specs.Prelude.{◌≡◌, ◌<◌, ◌^◌, []};
ghost use Rattle.cx_machine.specs.Callbacks.{members};
ghost use Rattle.cx_stop.specs.Kinds.{opens};

use crate::action::Action;
use crate::kept::{Kept, Stored};
use crate::pass::{StopPass, StopSource};
use cx_machine::{StopMachine, StopRegistry};
use cx_names::NoMemory;
use cx_turn::Turn;
use std::alloc::Global;

/// A stop state [thread.stoptoken]: whether a stop was requested, how many sources there are, and the
/// callbacks.
#[derive(Drop)]
pub struct StopState<C: Action> {
    pub(crate) turn: Turn<StopMachine, Kept<C>>,
    ghost bare: { members (opens turn) ≡ [] },
    ghost few: { (opens turn).sources < 2 ^ 28 },
}

impl<C: Action> StopState<C> {
    ghost use Rattle.std.specs.Prelude.{◌≡◌, ◌+◌, ◌<◌, ◌≤◌, ◌^◌, ℕ, IfOk, []};
    ghost use Rattle.cx_machine.specs.Stop.{Stop, opening};
    ghost use Rattle.cx_turn.specs.declared.view.View.{View};
    ghost use Rattle.cx_turn.specs.Views.{opening_view, note_left, note_right, split_left, split_right, both_of, having_met};
    ghost use Rattle.cx_stop.specs.Stops.{stop_seats, IsStopPass, IsStopPassWith, IsSource, IsSourceWith};

    /// A stop state without a request, with this many sources, for at most `seats` passes and `calls`
    /// changes, with its first pass and all its sources.
    pub fn new(
        alloc: Global,
        sources: u32,
        seats: u32,
        calls: u32,
    ) -> Result<(StopState<C>, StopPass, StopSource), NoMemory>
        requires sources { sources < 2 ^ 28 }
        requires seats { (1 ≤ seats) × (seats ≤ 256) }
        requires calls { calls < 2 ^ 28 }
        ensures seats { IfOk result (λ t. stop_seats t.0 ≡ seats) }
        ensures pass { IfOk result (λ t. IsStopPassWith t.0 t.1 (opening_view (opening sources) seats calls 0)) }
        ensures tags { IfOk result (λ t. t.1.next_tag ≡ 0) }
        ensures source { IfOk result (λ t. IsSource t.0 t.2 × (t.2.note.share ≡ sources)) }
    {
        let joiners = Vec::with_capacity(alloc, seats as usize)?;
        let at = Box::new(
            alloc,
            Stored {
                state: StopRegistry::new(alloc, sources),
                joiners,
            },
        )?;
        let (turn, mut pass) = Turn::new(alloc, Kept { at }, seats, calls)?;
        let note = turn.note(&mut pass, sources, 0, None);
        let pass = StopPass { pass, next_tag: 0 };
        Ok((StopState { turn }, pass, StopSource { note }))
    }

    /// Splits a new pass off the first one, with `calls` of its changes and the next number. It has
    /// registered nothing.
    pub fn split(&self, first: &mut StopPass, calls: u32) -> StopPass
        requires pass { IsStopPass self.now first.old }
        requires first { first.old.pass.number.0 ≡ 0 }
        requires seats { first.old.pass.splits + 1 < stop_seats self.now }
        requires calls { calls ≤ first.old.pass.left }
        ensures first { (v : View Stop) → IsStopPassWith self.now first.old v → IsStopPassWith self.now first.new (split_left v calls) }
        ensures second { (v : View Stop) → IsStopPassWith self.now first.old v → IsStopPassWith self.now result (split_right v calls) }
        ensures tags { (first.new.next_tag ≡ first.old.next_tag) × (result.next_tag ≡ 0) }
    {
        StopPass {
            pass: self.turn.split(&mut first.pass, calls),
            next_tag: 0,
        }
    }

    /// Takes another pass in: the pass gets what it has left and has seen, and the IDs that it holds.
    pub fn join(&self, pass: &mut StopPass, other: StopPass)
        requires pass { IsStopPass self.now pass.old }
        requires other { IsStopPass self.now other }
        ensures seen { (v w : View Stop) → IsStopPassWith self.now pass.old v → IsStopPassWith self.now other w → IsStopPassWith self.now pass.new (both_of v w) }
        ensures tag { pass.new.next_tag ≡ pass.old.next_tag }
    {
        self.turn.join(&mut pass.pass, other.pass);
    }

    /// Lets `to` see what `from` has seen.
    pub fn meet(&self, from: &mut StopPass, to: &mut StopPass)
        requires from { IsStopPass self.now from.old }
        requires to { IsStopPass self.now to.old }
        ensures from { (v : View Stop) → IsStopPassWith self.now from.old v → IsStopPassWith self.now from.new v }
        ensures to { (v w : View Stop) → IsStopPassWith self.now from.old v → IsStopPassWith self.now to.old w → IsStopPassWith self.now to.new (having_met w v) }
        ensures tags { (from.new.next_tag ≡ from.old.next_tag) × (to.new.next_tag ≡ to.old.next_tag) }
    {
        self.turn.meet(&mut from.pass, &mut to.pass);
    }
}
