//! Callbacks that are numbers.
use cx_names::NoMemory;
use cx_stop::{Action, Keeper};
use std::alloc::Global;

/// A number, with the ID that it is registered under.
#[derive(Drop, Debug, PartialEq, Eq)]
pub(crate) struct Numbered {
    pub(crate) id: u32,
    pub(crate) number: u32,
}

impl Action for Numbered {
    ghost use Rattle.std.specs.Prelude.{◌≡◌};

    ghost suits = { λ c id. c.id ≡ id };
}

/// What keeps the numbers that it is handed.
pub(crate) fn keeper(alloc: Global) -> Keeper<Numbered> {
    Keeper {
        kept: Vec::new(alloc),
    }
}
