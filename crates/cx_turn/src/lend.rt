//! Lending out of what a taker holds.
ghost use Rattle.std.specs.Prelude.{◌≡◌, []};
ghost use Rattle.std.specs.Borrow.{sem, Lends};
ghost use mir.Syntax.{named};
ghost use Rattle.std.specs.contracts.option.Option.{the_row as OptionOf};
ghost use Rattle.cx_turn.specs.contracts.held.Held.{the_row};
ghost use Rattle.cx_turn.specs.Lending.{with_hand, with_state};

use crate::held::Held;
use cx_machine::{Machine, Meaning};

impl<'a, M: Meaning, S: Machine<M>> Held<'a, M, S> {
    /// Lends the hand: what a change finds there, and what it leaves there. It is empty when the turn
    /// is taken, and is to be empty again when the turn is given up.
    pub fn hand<'s>(&'s mut self) -> &'s mut Option<S::Hand>
        ensures* lends { sem 𝓛 (Lends (the_row (record { mir = named 1; lft = [] }) M.row S.row S.Hand.row M.Meaning S.Machine) (OptionOf S.Hand.row) self.entry result (with_hand self.old)) }
        ensures value { result.now ≡ self.old.hand }
    {
        &mut self.hand
    }

    /// Lends the state, with what lies beside it. When the turn is given up the state's meaning is to
    /// be what the history leads to.
    pub fn state_mut<'s>(&'s mut self) -> &'s mut S
        ensures* lends { sem 𝓛 (Lends (the_row (record { mir = named 1; lft = [] }) M.row S.row S.Hand.row M.Meaning S.Machine) S.row self.entry result (with_state self.old)) }
        ensures value { result.now ≡ self.old.state }
    {
        &mut self.state
    }
}
