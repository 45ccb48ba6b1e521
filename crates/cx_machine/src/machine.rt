//! What a turn asks of a machine: which changes a state enables, which looks it shows, and how its
//! kept state makes a change.
ghost use Rattle.std.specs.Prelude.{◌≡◌, ◌+◌, ◌^◌, ◌<◌, ◌≤◌, ℕ, ℤ, Bool, Option, Some, None, IsSome, IfSome, IfNone, IfOk, IfErr, IsTrue, List, [], length};
ghost use Rattle.cx_names.specs.declared.ThreadNo.{ThreadNo};
ghost use Rattle.cx_names.specs.declared.Reply.{Reply};
ghost use Rattle.cx_machine.specs.declared.kind.Entry.{Entry};
ghost use Rattle.cx_machine.specs.declared.kind.Look.{Look};
ghost use Rattle.cx_machine.specs.declared.kind.Op.{Op};
ghost use Rattle.cx_machine.specs.Meaning.{change, look_of, run, IsShut, ShowsNone, AreBelow, IsOnceEach, bit, names};

use crate::kind::{Entry, Op};
use cx_names::{NoMemory, Reply, ThreadNo};

/// What the standard says that an object is: a plain value, of which only proofs speak. Passes and
/// notes name an object's machine by this type.
pub trait Meaning {
    /// The next state, or none where the change isn't enabled.
    ghost step: { Self → Entry → Option Self };

    /// Whether the state shows the look. The stamp isn't looked at.
    ghost shows: { Self → Look → Bool };

    /// Of several changes that differ in the reply alone, the one that `reply` picks.
    ghost picks: { Self → Entry → Type 0 } = { λ _ _. Unit {0} };

    /// The threads and IDs in the state's sets, each once. Of a pair only the ID counts.
    ghost members: { Self → List ℕ };

    /// No state that changes of threads below this number reach from a state without members has
    /// more members.
    ghost most: { Self → ℕ → ℕ };

    /// What the shares of the passes are parts of.
    ghost pool: { Self → ℕ } = { λ _. 0 };

    /// The changes to come that are already paid for.
    ghost debt: { Self → ℕ } = { λ _. 0 };

    /// The ID that the change hands to its pass.
    ghost gives: { Self → Entry → Option ℕ } = { λ _ _. None };

    /// The ID that the change takes back from its pass.
    ghost takes: { Self → Entry → Option ℕ } = { λ _ _. None };

    /// Whether the ID may be held.
    ghost lives: { Self → ℕ → Bool } = { λ _ _. Bool.false };

    /// Some state.
    ghost any: { Self };
}

/// A state as it is kept, which is seen as its meaning.
pub trait Machine<M: Meaning>: Drop {
    /// What a caller hands over with a change, or gets back with one.
    type Hand: Drop;

    /// What the state is, by the standard.
    ghost meaning: { Self → M };

    /// How many more members there is room for.
    ghost spare: { Self → ℕ };

    /// What lies beside the state agrees with it, so that the turn may be given up.
    ghost fits: { Self → Type 0 } = { λ _. Unit {0} };

    /// What the change finds in the hand.
    ghost ready: { Self → Option Self.Hand → Entry → Type 0 } = { λ _ _ _. Unit {0} };

    /// How the change moves a value between the hand and what is kept.
    ghost moves: { Self → Option Self.Hand → Entry → Self → Option Self.Hand → Type 0 };

    /// The two differ in their room alone.
    ghost alike: { Self → Self → Type 0 };

    /// Says what the change with this word and these numbers replies now.
    ///
    /// Returns None exactly where no such change is enabled. Of several replies it is the one that
    /// `picks` names.
    fn reply(&self, by: ThreadNo, op: Op, a: i64, b: i64) -> Option<Reply>
        ensures enabled { IfSome result (λ r. IsSome (M.step (meaning self.now) (change by op a b r))) }
        ensures picked { IfSome result (λ r. M.picks (meaning self.now) (change by op a b r)) }
        ensures none { IfNone result (IsShut M.step (meaning self.now) by op a b) };

    /// Says what the look with this word and these numbers replies now.
    ///
    /// Returns None exactly where no such look is shown.
    fn show(&self, by: ThreadNo, op: Op, a: i64, b: i64) -> Option<Reply>
        ensures shown { IfSome result (λ r. (k : ℕ) → IsTrue (M.shows (meaning self.now) (look_of by op a b r k))) }
        ensures none { IfNone result (ShowsNone M.shows (meaning self.now) by op a b) };

    /// Makes the change, which is enabled and for which there is room.
    fn make(&mut self, e: &Entry, hand: &mut Option<Self::Hand>)
        requires enabled { IsSome (M.step (meaning self.old) e.now) }
        requires room { (after : M) → M.step (meaning self.old) e.now ≡ Some after → length (M.members after) ≤ length (M.members (meaning self.old)) + spare self.old }
        requires hand { ready self.old hand.old e.now }
        ensures state { M.step (meaning self.old) e.now ≡ Some (meaning self.new) }
        ensures room { length (M.members (meaning self.new)) + spare self.new ≡ length (M.members (meaning self.old)) + spare self.old }
        ensures hand { moves self.old hand.old e.now self.new hand.new };

    /// Makes room for `n` more members.
    fn reserve(&mut self, n: u32) -> Result<(), NoMemory>
        ensures state { meaning self.new ≡ meaning self.old }
        ensures alike { alike self.old self.new }
        ensures room { IfOk result (λ _. n ≤ spare self.new) }
        ensures more { spare self.old ≤ spare self.new }
        ensures refused { IfErr result (λ _. spare self.new ≡ spare self.old) };

    /// How many members there may come to be, by changes of threads below `seats`.
    fn most(&self, seats: u32) -> u32
        requires { seats ≤ 256 }
        ensures { result ≡ M.most (meaning self.now) seats };

    /// What the shares of the passes are parts of.
    fn pool(&self) -> u32
        ensures { result ≡ M.pool (meaning self.now) };

    /// How many changes to come are already paid for.
    fn debt(&self) -> u32
        requires { M.debt (meaning self.now) < 2 ^ 32 }
        ensures { result ≡ M.debt (meaning self.now) };

    /// An ID that is given was not held before, and one that isn't taken back lives on.
    ghost lives_on: { (m m' : M) (e : Entry) (id : ℕ) → M.step m e ≡ Some m' → bit (M.lives m id) + names (M.gives m e) id ≤ bit (M.lives m' id) + names (M.takes m e) id };

    /// No change alters how many members there may come to be.
    ghost most_stays: { (m m' : M) (e : Entry) (seats : ℕ) → M.step m e ≡ Some m' → M.most m' seats ≡ M.most m seats };

    /// There never are more members than that.
    ghost most_holds: { (m m' : M) (seats : ℕ) (es : List Entry) → M.members m ≡ [] → AreBelow seats es → run M.step (Some m) es ≡ Some m' → length (M.members m') ≤ M.most m seats };

    /// Each member stands once.
    ghost once_each: { (s : Self) → IsOnceEach (M.members (meaning s)) };
}
