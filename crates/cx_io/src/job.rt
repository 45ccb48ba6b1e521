ghost use Rattle.std.specs.Prelude.{◌≡◌, ℕ};

use std::sync::Wait;

/// Work that a thread does: the function with its arguments that C++ hands to a thread [thread.thread.constr].
///
/// A job owns all that it uses; what several jobs share it holds by `Arc`.
pub trait Job: Send + Drop + 'static {
    /// What the work gives.
    type Out: Send + Drop + 'static;

    /// What must hold of a job so that it may run. Nothing, unless a job says so.
    ghost needs: { Self → Type 0 } = { λ _. Unit {0} };

    /// Which outcomes a job may have.
    ghost gives: { Self → Self.Out → Type 0 };

    /// How many steps of the work an outcome tells of.
    ghost steps_of: { Self.Out → ℕ };

    /// Does the work. It may wait for other threads.
    fn run<R: Wait>(self, rt: &R) -> Self::Out
        requires needs { needs self }
        ensures { gives self result };

    /// How many steps of the work the outcome tells of.
    fn steps(out: &Self::Out) -> u64
        ensures { result ≡ steps_of out.now };
}
