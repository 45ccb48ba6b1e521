ghost use Rattle.std.specs.Prelude.{◌<◌, ℕ, List, length, Option};
ghost use Rattle.cx_io.specs.Edge.{FitsPush, Pushes, PushCause};

/// What a push answers.
#[derive(Clone, Copy, Debug, PartialEq, Eq)]
pub enum Pushed {
    /// The sink took this many bytes, at least one.
    Took(usize),
    /// The sink failed, and its count of faults rose.
    Failed,
}

/// Where bytes go.
pub trait Sink {
    /// The bytes that it has taken, where that is told.
    ghost taken: { Self → Option (List ℕ) };

    /// How often it has failed. The count never falls, and stands still at 2^64 - 1.
    ghost faults: { Self → ℕ };

    /// Hands over a piece, which may not be empty, and of which the sink takes some front.
    ///
    /// Where what was taken is told after the call, it was told before it: `Took(n)` has added the first `n` bytes,
    /// and `Failed` nothing.
    fn push(&mut self, piece: &[u8]) -> Pushed
        requires { 0 < length piece.now }
        ensures fits { FitsPush result (length piece.now) }
        ensures bytes { Pushes result (taken self.old) piece.now (taken self.new) }
        ensures cause { PushCause result (faults self.old) (faults self.new) };
}
