//! The rule of the table.
//!
//! Word 0 has the taken bit (bit 0) and above it the count of changes. Slot 0 holds the state. Word
//! 1 + n is the wake word of the pass with number n.
//!
//! | Word 0 | Slot 0 | What it means | Who may be where |
//! |---|---|---|---|
//! | 2n | `Home(state)` | free, after n changes, which lead to the state | no pass is inside |
//! | 2n + 1 | `Away` | taken, after n changes | one pass is inside: it has the state, and alone looks, changes and leaves |
//!
//! | Word 1 + n | What it means | Who may be where |
//! |---|---|---|
//! | 0 | pass n was not woken | pass n may sleep on the word |
//! | 1 | pass n was woken, and has not taken the wake yet | nobody falls asleep on the word |
//!
//! Waking a pass writes 1, and taking the wake writes 0. Neither asks for the turn, or alters a view.
//!
//! Taking sets the bit, a change adds 2, a look is a load, leaving clears the bit, and leaving with a
//! change adds 1, which does both. A split and a join are loads, which change views alone.
use crate::view::{Desk, View};
use atomic_table::{Table, TableRule};
use cx_machine::{Machine, Meaning};
use std::alloc::Global;
use std::marker::PhantomData;
use std::snapshot::Snapshot;

/// What the table is told once, when it is made.
#[derive(Drop)]
pub struct Opening<S> {
    pub state: Snapshot<S>,
    pub seats: u32,
    pub calls: u32,
}

/// The rule: one counted history, whose length is in the word and which leads to the state.
pub struct TurnRule<M> {
    of: PhantomData<M>,
}

impl<M: Meaning, S: Machine<M>> TableRule<Desk<S>, View<M>, Opening<S>> for TurnRule<M> {
    ghost use Rattle.cx_turn.specs.Turning.{Turns};
    ghost use Rattle.cx_turn.specs.Views.{opening_view};

    ghost holds = { λ key. Turns S.meaning S.fits M.Meaning (S.meaning key.state.value) key.seats };

    ghost first = { λ key. opening_view (S.meaning key.state.value) key.seats key.calls (M.pool (S.meaning key.state.value)) };
}

/// The table of a turn: the count, a wake word for each seat, and one slot.
pub type Board<M, S> = Table<Desk<S>, View<M>, Opening<S>, TurnRule<M>, Global>;
