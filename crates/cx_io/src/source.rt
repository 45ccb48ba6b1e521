ghost use Rattle.std.specs.Prelude.{◌<◌, ℕ, List, length, Option};
ghost use Rattle.cx_io.specs.Edge.{Fits, PullsOf, PullCause};

/// What a pull answers.
#[derive(Clone, Copy, Debug, PartialEq, Eq)]
pub enum Pulled {
    /// This many bytes, at least one, stand at the front of the buffer.
    Got(usize),
    /// The source has no more bytes.
    End,
    /// The source failed, and its count of faults rose.
    Failed,
}

/// Where bytes come from.
pub trait Source {
    /// The bytes that are not yet read, where that is told.
    ghost left: { Self → Option (List ℕ) };

    /// How often it has failed. The count never falls, and stands still at 2^64 - 1.
    ghost faults: { Self → ℕ };

    /// Puts the next bytes at the front of `out`, which may not be empty.
    ///
    /// Where what is left is told before the call, it is told after it: `Got(n)` takes the first `n` bytes away,
    /// `Failed` leaves all as it was, and `End` comes only where nothing is left.
    fn pull(&mut self, out: &mut [u8]) -> Pulled
        requires { 0 < length out.old }
        ensures fits { Fits result (length out.old) }
        ensures bytes { PullsOf result (left self.old) out.new (left self.new) }
        ensures cause { PullCause result (faults self.old) (faults self.new) };
}
