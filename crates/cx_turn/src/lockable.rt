//! Locks that a condition can wait with.
ghost use Rattle.std.specs.Prelude.{◌≡◌, ◌+◌, ◌≤◌, ℕ};
ghost use Rattle.cx_names.specs.declared.ThreadNo.{ThreadNo};
ghost use Rattle.cx_machine.specs.declared.kind.Entry.{Entry};
ghost use Rattle.cx_turn.specs.declared.view.View.{View};
ghost use Rattle.cx_turn.specs.Acts.{Makes};

use cx_machine::Meaning;
use std::sync::Wait;

/// A lock that a caller takes with a key, its pass, and that it holds by a hold.
pub trait Lockable {
    /// What the standard says that the lock is.
    type M: Meaning;

    /// The caller's pass.
    type Key;

    /// The lock, held.
    type Hold;

    /// The key is an idle pass of this lock, and has seen so much.
    ghost knows: { Self → Self.Key → View Self.M → Type 0 };

    /// The thread of the key.
    ghost number: { Self.Key → ThreadNo };

    /// How many changes the key may still make.
    ghost left: { Self.Key → ℕ };

    /// The key holds nothing.
    ghost is_bare: { Self → Self.Key → Type 0 };

    /// The hold is the key's own, and all that it holds.
    ghost is_held: { Self → Self.Key → Self.Hold → Type 0 };

    /// The change by which this thread takes the lock, and the one by which it gives it up.
    ghost taking: { ThreadNo → Entry };

    ghost giving: { ThreadNo → Entry };

    /// Waits for the lock and takes it. Returns the hold and the position of the change.
    ///
    /// The key went on by this one change, at the end of the history found.
    fn acquire<R: Wait>(&self, rt: &R, key: &mut Self::Key) -> (Self::Hold, u32)
        requires key { (v : View Self.M) × knows self.now key.old v }
        requires bare { is_bare self.now key.old }
        requires left { 1 ≤ left key.old }
        ensures held { is_held self.now key.new result.0 }
        ensures left { left key.new + 1 ≡ left key.old }
        ensures number { number key.new ≡ number key.old }
        ensures made { (v : View Self.M) → knows self.now key.old v → (w : View Self.M) × knows self.now key.new w × Makes Self.M.Meaning v w (taking (number key.old)) result.1 };

    /// Gives the lock up. Returns the position of the change.
    ///
    /// The key went on by this one change, at the end of the history found.
    fn release<R: Wait>(&self, rt: &R, key: &mut Self::Key, hold: Self::Hold) -> u32
        requires key { (v : View Self.M) × knows self.now key.old v }
        requires held { is_held self.now key.old hold }
        requires left { 1 ≤ left key.old }
        ensures bare { is_bare self.now key.new }
        ensures left { left key.new + 1 ≡ left key.old }
        ensures number { number key.new ≡ number key.old }
        ensures made { (v : View Self.M) → knows self.now key.old v → (w : View Self.M) × knows self.now key.new w × Makes Self.M.Meaning v w (giving (number key.old)) result };

    /// Both are changes of that thread, and what a key has seen is its own thread's.
    ghost own: { (t : ThreadNo) → ((taking t).by ≡ t) × ((giving t).by ≡ t) };

    ghost numbered: { (x : Self) (k : Self.Key) (v : View Self.M) → knows x k v → v.number ≡ (number k).0 };
}
