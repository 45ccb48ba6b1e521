//! Tests of one number that a mutex guards.
ghost use Rattle.std.specs.Prelude.{◌≡◌, ℕ, ℤ, Bool};

use cx_scene::Relation;

/// A test of one number that a mutex guards.
pub trait Predicate {
    /// The index of the number.
    ghost number: { Self → ℕ };

    /// Whether the test holds where this is the number.
    ghost holds: { Self → ℤ → Bool };

    /// The index of the number.
    fn number(&self) -> u8
        ensures { result ≡ number self.now };

    /// Whether the test holds where `v` is the number.
    fn holds(&self, v: i64) -> bool
        ensures { result ≡ holds self.now v };
}

/// The number at this index stands in this relation to the value.
#[derive(Clone, Copy)]
pub struct Predicate8 {
    pub number: u8,
    pub relation: Relation,
    pub value: i64,
}

impl Predicate for Predicate8 {
    ghost use Rattle.cx_scene.specs.Scene.{holds};

    ghost number = { λ p. p.number };

    ghost holds = { λ p v. holds v p.relation p.value };

    fn number(&self) -> u8 {
        self.number
    }

    fn holds(&self, v: i64) -> bool {
        self.relation.holds(v, self.value)
    }
}
