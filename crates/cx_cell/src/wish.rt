//! What callers ask for, and what they get.
ghost use Rattle.std.specs.Prelude.{◌≡◌};

use cx_machine::Op;
use cx_names::ThreadNo;

/// What a caller asks for, with these numbers: a change, a look, or whichever of the two the state
/// allows, the change first.
#[derive(Clone, Copy)]
pub struct Wish {
    pub change: Option<Op>,
    pub look: Option<Op>,
    pub a: i64,
    pub b: i64,
}

/// A caller in the queue.
#[derive(Clone, Copy)]
pub struct Waiter {
    pub seat: ThreadNo,
    pub wish: Wish,
    /// It was woken since it last found that the state denies its wish.
    pub woken: bool,
}

impl Wish {
    pub fn new(change: Option<Op>, look: Option<Op>, a: i64, b: i64) -> Wish
        ensures change { result.change ≡ change }
        ensures look { result.look ≡ look }
        ensures numbers { (result.a ≡ a) × (result.b ≡ b) }
    {
        Wish { change, look, a, b }
    }
}
