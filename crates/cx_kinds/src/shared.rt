//! Objects that threads share.
ghost use Rattle.std.specs.Prelude.{◌≡◌, ◌⊎◌, ◌+◌, ◌≤◌, ℕ, Bool, false, Option, Some, IsSome};
ghost use Rattle.cx_names.specs.declared.ThreadNo.{ThreadNo};
ghost use Rattle.cx_machine.specs.Machine.{State};
ghost use Rattle.cx_machine.specs.Meaning.{run, bit};
ghost use Rattle.cx_turn.specs.declared.view.View.{View};
ghost use Rattle.cx_turn.specs.Views.{split_left, split_right, less_share, given, both_of, having_met};
ghost use Rattle.cx_items.specs.declared.kept.Kept.{Kept};
ghost use Rattle.cx_items.specs.Memory.{nothing};
ghost use Rattle.cx_asks.specs.declared.ask.Ask.{Ask};
ghost use Rattle.cx_kinds.specs.AnyKind.{IsKindOf};
ghost use Rattle.cx_kinds.specs.Acts.{DoesAsk, IsKept, CanSplit};
ghost use Rattle.cx_kinds.specs.Holding.{changes_back, owes_completion};
ghost use Rattle.cx_kinds.specs.Seats.{IsRight};
ghost use Rattle.cx_kinds.specs.Sights.{IsOfSame};

use cx_asks::Ask;
use cx_machine::Meaning;
use cx_names::ThreadNo;
use cx_turn::Either;
use std::sync::Wait;

/// An object that threads share, of which each has a token.
pub trait Shared: Drop {
    /// What the object is, by the standard.
    type M: Meaning;

    /// What a thread has of the object.
    type Token: Drop;

    /// The token is one of this object, is idle, and has seen so much.
    ghost knows: { Self → Self.Token → View Self.M → Type 0 };

    /// The thread of the token.
    ghost number: { Self.Token → ThreadNo };

    /// The token's part of what the object shares out.
    ghost share: { Self.Token → ℕ };

    /// The state that the object opens in.
    ghost start: { Self → Self.M };

    /// What the token holds of the object, in the words of what a thread remembers.
    ghost kept: { Self.Token → Kept };

    /// Whether the thread has begun what others wait for: the function of a once flag, or a completion.
    ghost begun: { Self.Token → Bool };

    /// With so much held, and this share, this may be asked of the object.
    ghost serves: { Kept → ℕ → Ask → Type 0 };

    /// The state among those of all kinds.
    ghost as_any: { Self.M → State };

    /// The thread of the token.
    fn number(token: &Self::Token) -> ThreadNo
        ensures { result ≡ number token.now };

    /// Does what is asked, which is one call of the object and one change or one look. Waits until the
    /// state allows it. None where it can't be asked with this token.
    fn act<R: Wait>(&self, rt: &R, token: &mut Self::Token, ask: Ask) -> Option<Either>
        requires token { (v : View Self.M) × knows self.now token.old v }
        ensures did { (v : View Self.M) → knows self.now token.old v → (w : View Self.M) × knows self.now token.new w × DoesAsk Self.M.Meaning (number token.old) ask v w result }
        ensures kept { IsKept ask (kept token.old) result (kept token.new) }
        ensures served { (v : View Self.M) → knows self.now token.old v → 1 ≤ v.left → serves (kept token.old) v.share ask → IsSome result };

    /// Splits a token for the next thread off main's, which holds nothing.
    fn split(&self, first: &mut Self::Token, calls: u32) -> Self::Token
        requires token { (v : View Self.M) × knows self.now first.old v }
        requires free { kept first.old ≡ nothing }
        requires room { (v : View Self.M) → knows self.now first.old v → CanSplit v calls }
        ensures first { (v : View Self.M) → knows self.now first.old v → knows self.now first.new (split_left v calls) }
        ensures second { (v : View Self.M) → knows self.now first.old v → knows self.now result (split_right v calls) }
        ensures free { (kept first.new ≡ nothing) × (kept result ≡ nothing) };

    /// Takes another token in.
    fn join(&self, token: &mut Self::Token, other: Self::Token)
        requires token { (v : View Self.M) × knows self.now token.old v }
        requires other { (v : View Self.M) × knows self.now other v }
        ensures kept { kept token.new ≡ kept token.old }
        ensures seen { (v w : View Self.M) → knows self.now token.old v → knows self.now other w → knows self.now token.new (both_of v w) };

    /// Lets `to` see what `from` has seen.
    fn meet(&self, from: &mut Self::Token, to: &mut Self::Token)
        requires from { (v : View Self.M) × knows self.now from.old v }
        requires to { (v : View Self.M) × knows self.now to.old v }
        ensures kept { (kept from.new ≡ kept from.old) × (kept to.new ≡ kept to.old) }
        ensures from { (v : View Self.M) → knows self.now from.old v → knows self.now from.new v }
        ensures to { (v w : View Self.M) → knows self.now from.old v → knows self.now to.old w → knows self.now to.new (having_met w v) };

    /// Gives back what the token holds, and ends what its thread has begun, without an item. All of it, where
    /// as many changes are left as that takes; else as much as they suffice for.
    fn give_up<R: Wait>(&self, rt: &R, token: &mut Self::Token)
        requires token { (v : View Self.M) × knows self.now token.old v }
        ensures seen { (v : View Self.M) → knows self.now token.old v → (w : View Self.M) × knows self.now token.new w × IsOfSame v w }
        ensures freed { (v : View Self.M) → knows self.now token.old v → changes_back (kept token.old) ≤ v.left → kept token.new ≡ nothing }
        ensures free { (w : View Self.M) → knows self.now token.new w → (kept token.new ≡ nothing) ⊎ (w.left ≡ 0) }
        ensures ended { (v : View Self.M) → knows self.now token.old v → changes_back (kept token.old) + bit (begun token.old) ≤ v.left → begun token.new ≡ false }
        ensures idle { (w : View Self.M) → knows self.now token.new w → (begun token.new ≡ false) ⊎ (w.left ≡ 0) };

    /// Whether a completion by the token's thread is due after the history that it has seen.
    fn is_completing(&self, token: &Self::Token) -> bool
        requires token { (v : View Self.M) × knows self.now token.now v }
        ensures { (v : View Self.M) (m : Self.M) → knows self.now token.now v → run Self.M.Meaning.step (Some v.start) v.front ≡ Some m → result ≡ owes_completion v.number (Some (as_any m)) };

    /// What holds of each view that a token has seen.
    ghost right: { (x : Self) (k : Self.Token) (v : View Self.M) → knows x k v → IsRight Self.M.Meaning knows number share start x k v };

    /// The object's machine is one of those of all kinds.
    ghost kind: { IsKindOf Self.M.Meaning as_any };
}

/// An object of whose state the tokens have shares.
pub trait Pooled: Shared {
    /// The token's share.
    fn share(token: &Self::Token) -> u32
        ensures { result ≡ Self.share token.now };

    /// Moves `n` of the share of `from` to `to`, which then has seen what both had seen.
    fn give(&self, from: &mut Self::Token, to: &mut Self::Token, n: u32)
        requires from { (v : View Self.M) × Self.knows self.now from.old v }
        requires to { (v : View Self.M) × Self.knows self.now to.old v }
        requires share { n ≤ Self.share from.old }
        ensures kept { (Self.kept from.new ≡ Self.kept from.old) × (Self.kept to.new ≡ Self.kept to.old) }
        ensures from { (v : View Self.M) → Self.knows self.now from.old v → Self.knows self.now from.new (less_share v n) }
        ensures to { (v w : View Self.M) → Self.knows self.now from.old v → Self.knows self.now to.old w → Self.knows self.now to.new (given w v n) };
}
