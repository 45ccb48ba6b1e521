//! What a thread has of a shared mutex that it owns.
use cx_names::ThreadNo;

/// A shared mutex that its writer holds. It is given back by `unlock`.
#[derive(Drop, Debug, PartialEq, Eq)]
pub struct Hold {
    pub(crate) by: ThreadNo,
}

/// A shared mutex that a reader holds. It is given back by `unlock_shared`.
#[derive(Drop, Debug, PartialEq, Eq)]
pub struct Shared {
    pub(crate) by: ThreadNo,
}

/// What an attempt to lock came to.
#[derive(Drop, Debug, PartialEq, Eq)]
pub enum Tried<H> {
    /// It locked, at this position.
    Got(H, u32),
    /// It couldn't be locked after this many changes.
    Not(u32),
}
