//! The acts of a wait with a predicate, in their order.
use cx_machine::{Entry, Look};

/// Which object an act is on.
#[derive(Clone, Copy, Debug, PartialEq, Eq)]
pub enum Part {
    Condition,
    Mutex,
}

/// An act of a wait: a change with its position, or a look, in which its stamp is.
#[derive(Clone, Copy, Debug, PartialEq, Eq)]
pub enum Logged {
    Change(Part, u32, Entry),
    Look(Part, Look),
}

/// The acts of waits, in their order.
#[derive(Drop)]
pub struct Log {
    pub acts: Vec<Logged>,
}
