//! Which callers are to be woken once the turn is free.
ghost use Rattle.std.specs.Prelude.{◌≡◌, ◌<◌, ◌||◌, ◌==◌, ℕ, false, true};
ghost use Rattle.cx_cell.specs.Callers.{is_called};

use cx_names::ThreadNo;

// A set of numbers below 256, a bit for each.
#[derive(Clone, Copy)]
pub(crate) struct Called {
    low: u128,
    high: u128,
}

impl Called {
    pub(crate) fn nobody() -> Called
        ensures { (n : ℕ) → is_called result n ≡ false }
    {
        Called { low: 0, high: 0 }
    }

    pub(crate) fn add(&mut self, seat: ThreadNo)
        ensures { (n : ℕ) → n < 256 → is_called self.new n ≡ (is_called self.old n || (seat.0 == n)) }
    {
        if seat.0 < 128 {
            self.low |= 1 << seat.0;
        } else if seat.0 < 256 {
            self.high |= 1 << (seat.0 - 128);
        }
    }

    pub(crate) fn is_empty(&self) -> bool
        ensures { result ≡ true → (n : ℕ) → is_called self.now n ≡ false }
    {
        self.low == 0 && self.high == 0
    }

    pub(crate) fn has(&self, seat: u32) -> bool
        requires { seat < 256 }
        ensures { result ≡ is_called self.now seat }
    {
        if seat < 128 {
            self.low >> seat & 1 == 1
        } else {
            self.high >> (seat - 128) & 1 == 1
        }
    }
}
