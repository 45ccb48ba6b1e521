//! Shared mutexes on cells: one writer, or many readers.
//!
//! - `SharedMutex`: a shared mutex. It is a `Lockable` by its exclusive calls.
//! - `Hold`: what the writer has.
//! - `Shared`: what a reader has.
//! - `Tried`: what an attempt to lock came to.
#![tactic(auto)]

mod exclusive;
mod holds;
mod lockable;
mod readers;
mod shared_mutex;

pub use holds::{Hold, Shared, Tried};
pub use shared_mutex::{SharedMutex, SharedPass};
