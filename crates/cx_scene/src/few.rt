ghost use Rattle.std.specs.Prelude.{◌≡◌, ℕ, List, [], ◌∷◌, ◌++◌, length, take, ◌==◌, ◌<◌, ◌≤◌};

use std::marker::Model;

/// Up to five numbers, in the order in which they were pushed.
#[derive(Drop)]
pub struct Few {
    all: [u32; 5],
    len: usize,
}

impl Model for Few {
    ghost Value = { List ℕ };

    ghost view = { λ f. take f.len f.all };

    ghost invariant = { λ f. f.len ≤ 5 };
}

impl Few {
    /// No numbers.
    pub fn new() -> Few
        ensures { result ≡ [] }
    {
        Few {
            all: [0; 5],
            len: 0,
        }
    }

    /// How many numbers there are, at most five.
    pub fn len(&self) -> usize
        ensures count { result ≡ length self.now }
        ensures small { result ≤ 5 }
    {
        self.len
    }

    /// Whether there is no number.
    pub fn is_empty(&self) -> bool
        ensures { result ≡ (length self.now == 0) }
    {
        self.len == 0
    }

    /// Puts `n` after the others; there are at most four of them.
    pub fn push(&mut self, n: u32)
        requires { length self.old < 5 }
        ensures { self.new ≡ self.old ++ n ∷ [] }
    {
        self.all[self.len] = n;
        self.len += 1;
    }

    /// The numbers, as a slice.
    pub fn as_slice(&self) -> &[u32]
        ensures { result.now ≡ self.now }
    {
        &self.all[..self.len]
    }

    /// The same numbers once more.
    pub fn copied(&self) -> Few
        ensures { result ≡ self.now }
    {
        Few {
            all: self.all,
            len: self.len,
        }
    }
}
