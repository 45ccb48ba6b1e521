//! The cell.
use crate::queued::{CALLERS, Kept, Queued};
use cx_machine::{Machine, Meaning};
use cx_names::NoMemory;
use cx_turn::{Pass, Turn};
use std::alloc::Global;

/// The state of a machine with a queue of sleeping callers, behind one turn.
///
/// While the turn is free, each caller in the queue whose wish the state allows is marked as woken.
#[derive(Drop)]
pub struct Cell<M: Meaning, S: Machine<M>> {
    pub(crate) turn: Turn<M, Queued<S>>,
}

impl<M: Meaning, S: Machine<M>> Cell<M, S> {
    ghost use Rattle.std.specs.Prelude.{◌≡◌, ◌+◌, ◌<◌, ◌≤◌, ◌^◌, ℕ, IfOk, []};
    ghost use Rattle.cx_turn.specs.declared.view.View.{View};
    ghost use Rattle.cx_turn.specs.Views.{IsNow, IsIn, opening_view, split_left, split_right, both_of, less_share, given, having_met};
    ghost use Rattle.cx_cell.specs.Cells.{IsCellPass, IsCellPassWith, cell_start, cell_seats};

    /// Makes a cell with this state, for at most `seats` passes and `calls` changes, and its first pass,
    /// which has number 0, all the calls and the whole pool. No call on it takes memory.
    ///
    /// The state has no members.
    pub fn new(
        alloc: Global,
        mut value: S,
        seats: u32,
        calls: u32,
    ) -> Result<(Cell<M, S>, Pass<M>), NoMemory>
        requires seats { (1 ≤ seats) × (seats ≤ 256) }
        requires calls { (calls < 2 ^ 28) × (M.debt (S.meaning value) ≡ 0) }
        requires members { M.members (S.meaning value) ≡ [] }
        ensures cell { IfOk result (λ t. (cell_start S.meaning t.0 ≡ S.meaning value) × (cell_seats S.meaning t.0 ≡ seats)) }
        ensures pass { IfOk result (λ t. IsCellPassWith S.meaning M.Meaning t.0 t.1 (opening_view (S.meaning value) seats calls (M.pool (S.meaning value)))) }
    {
        let room = value.most(CALLERS);
        value.reserve(room)?;
        let queue = Vec::with_capacity(alloc, seats as usize)?;
        let kept = Box::new(
            alloc,
            Kept {
                state: value,
                queue,
            },
        )?;
        let (turn, pass) = Turn::new(alloc, Queued { kept }, seats, calls)?;
        Ok((Cell { turn }, pass))
    }

    /// Splits a new pass off the first one, with `calls` of its changes and the next number.
    pub fn split(&self, first: &mut Pass<M>, calls: u32) -> Pass<M>
        requires pass { IsCellPass S.meaning M.Meaning self.now first.old }
        requires first { first.old.number.0 ≡ 0 }
        requires seats { first.old.splits + 1 < cell_seats S.meaning self.now }
        requires calls { calls ≤ first.old.left }
        ensures first { (v : View M) → IsCellPassWith S.meaning M.Meaning self.now first.old v → IsCellPassWith S.meaning M.Meaning self.now first.new (split_left v calls) }
        ensures second { (v : View M) → IsCellPassWith S.meaning M.Meaning self.now first.old v → IsCellPassWith S.meaning M.Meaning self.now result (split_right v calls) }
    {
        self.turn.split(first, calls)
    }

    /// Takes another pass in: the pass gets what it has left, holds as its share and has seen.
    pub fn join(&self, pass: &mut Pass<M>, other: Pass<M>)
        requires pass { IsCellPass S.meaning M.Meaning self.now pass.old }
        requires other { IsCellPass S.meaning M.Meaning self.now other }
        ensures { (v w : View M) → IsCellPassWith S.meaning M.Meaning self.now pass.old v → IsCellPassWith S.meaning M.Meaning self.now other w → IsCellPassWith S.meaning M.Meaning self.now pass.new (both_of v w) }
    {
        self.turn.join(pass, other);
    }

    /// Lets `to` see what `from` has seen.
    pub fn meet(&self, from: &mut Pass<M>, to: &mut Pass<M>)
        requires from { IsCellPass S.meaning M.Meaning self.now from.old }
        requires to { IsCellPass S.meaning M.Meaning self.now to.old }
        ensures from { (v : View M) → IsCellPassWith S.meaning M.Meaning self.now from.old v → IsCellPassWith S.meaning M.Meaning self.now from.new v }
        ensures to { (v w : View M) → IsCellPassWith S.meaning M.Meaning self.now from.old v → IsCellPassWith S.meaning M.Meaning self.now to.old w → IsCellPassWith S.meaning M.Meaning self.now to.new (having_met w v) }
    {
        self.turn.meet(from, to);
    }

    /// Moves `n` of the share of `from` to `to`, which then has seen what both had seen.
    pub fn give(&self, from: &mut Pass<M>, to: &mut Pass<M>, n: u32)
        requires from { IsCellPass S.meaning M.Meaning self.now from.old }
        requires to { IsCellPass S.meaning M.Meaning self.now to.old }
        requires share { n ≤ from.old.share }
        ensures from { (v : View M) → IsCellPassWith S.meaning M.Meaning self.now from.old v → IsCellPassWith S.meaning M.Meaning self.now from.new (less_share v n) }
        ensures to { (v w : View M) → IsCellPassWith S.meaning M.Meaning self.now from.old v → IsCellPassWith S.meaning M.Meaning self.now to.old w → IsCellPassWith S.meaning M.Meaning self.now to.new (given w v n) }
    {
        self.turn.give(from, to, n);
    }

    /// Ends the cell, and gives the state, to which the whole history leads.
    ///
    /// The pass is the first one, and has taken in every other.
    pub fn close(self, pass: Pass<M>) -> S
        requires pass { IsCellPass S.meaning M.Meaning self pass }
        requires first { pass.number.0 ≡ 0 }
        requires all { (v : View M) → IsCellPassWith S.meaning M.Meaning self pass v → (n : ℕ) → 0 < n → n ≤ v.splits → IsIn n v.taken }
        ensures { (v : View M) → IsCellPassWith S.meaning M.Meaning self pass v → IsNow M.Meaning v v.front (S.meaning result) }
    {
        let Cell { turn } = self;
        let Queued { kept } = turn.close(pass);
        let Kept { state, queue: _ } = Box::into_inner(kept);
        state
    }
}
