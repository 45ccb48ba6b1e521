//! What is done when a phase completes [thread.barrier.class].
ghost use Rattle.std.specs.Prelude.{◌≡◌, ℕ};
ghost use Rattle.cx_barrier.specs.Completions.{raised};

use cx_names::ThreadNo;
use std::sync::Wait;

/// A completion function with what it keeps [thread.barrier.class].
pub trait Completion {
    /// How many completions it has made. The count stands still at 2^64 - 1.
    ghost runs: { Self → ℕ };

    /// How a value stands to what it was earlier.
    ghost since: { Self → Self → Type 0 };

    /// Completes a phase, on the thread that arrived last. It may wait for other threads.
    fn complete<R: Wait>(&mut self, rt: &R, by: ThreadNo)
        ensures runs { runs self.new ≡ raised (runs self.old) }
        ensures since { since self.new self.old };

    /// A value stands so to itself, and along chains.
    ghost since_itself: { (c : Self) → since c c };

    ghost since_all: { (c d e : Self) → since c d → since d e → since c e };
}
