//! What a callback keeps.
ghost use Rattle.std.specs.Prelude.{ℕ};

/// What is run as a callback, until it runs or is removed.
pub trait Action: Drop {
    /// The value may be registered under this ID. It comes back under no other.
    ghost suits: { Self → ℕ → Type 0 } = { λ _ _. Unit {0} };
}
