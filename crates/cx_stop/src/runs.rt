//! What runs callbacks.
ghost use Rattle.std.specs.Prelude.{◌≡◌, ℕ, List, [], ◌∷◌, Option, None};
ghost use Rattle.cx_machine.specs.Stop.{Stop};
ghost use Rattle.cx_turn.specs.declared.view.View.{View};
ghost use Rattle.cx_stop.specs.Runs.{Tells, Lent, Begins, Finishes};
ghost use Rattle.cx_stop.specs.Stops.{StopId, IsStopPassAt};
ghost use Rattle.cx_stop.specs.Went.{Went};

use crate::action::Action;
use crate::pass::StopPass;
use std::sync::Wait;

/// What runs the callbacks of stop states, whose values are of the type `C`.
pub trait Runs<C: Action> {
    /// The ID and the position of each change that started or ended a callback, as long as there was memory
    /// to tell of them.
    ghost ran: { Self → Option (List (ℕ × ℕ)) } = { λ _. None };

    /// What became of the runner since it was the first, as the pass that it was lent went on from one view
    /// to the other.
    ghost since: { Self → View Stop → Self → View Stop → Type 0 };

    /// The runner may run callbacks of this stop state on the thread of this number.
    ghost serves: { Self → StopId → ℕ → Type 0 };

    /// Runs the callback, whose change at `begin` is the pass's last. It may look and deregister through
    /// `at`.
    fn run<R: Wait>(&mut self, rt: &R, at: &mut StopPass, id: u32, begin: u32, cb: C)
        requires at { (i : StopId) × (u : View Stop) × (v : View Stop) × IsStopPassAt i at.old v × Begins u v id begin × serves self.old i v.number }
        requires suits { C.suits cb id }
        ensures at { (i : StopId) (u v : View Stop) → IsStopPassAt i at.old v → Begins u v id begin → (w : View Stop) × IsStopPassAt i at.new w × Lent v w × since self.old u self.new w }
        ensures tag { at.new.next_tag ≡ at.old.next_tag }
        ensures ran { Tells (ran self.old) ((id, begin) ∷ []) (ran self.new) }
        ensures serves { (i : StopId) (n : ℕ) → serves self.old i n → serves self.new i n };

    /// Hears that the callback was finished, by the change at `finish`.
    fn finished(&mut self, id: u32, finish: u32)
        ensures since { (u w : View Stop) → Finishes u w id finish → since self.old u self.new w }
        ensures ran { Tells (ran self.old) ((id, finish) ∷ []) (ran self.new) }
        ensures serves { (i : StopId) (n : ℕ) → serves self.old i n → serves self.new i n };

    /// While the pass saw what others did, nothing became of the runner.
    ghost since_self: { (r : Self) (v w : View Stop) → Went v w [] [] → since r v r w };

    ghost since_on: { (a b c : Self) (u v w : View Stop) → since a u b v → since b v c w → since a u c w };
}
