//! The edge of the program: where bytes come from, where they go, who starts threads, and a count of the faults of
//! each.
//!
//! - [`Source`] and [`Sink`] are the two sides; what they do to the bytes is part of their contracts.
//! - [`Bytes`] and [`Buffer`] are the sides in memory, with calls that fail on demand.
//! - [`SureBytes`] and [`SureBuffer`] are their twins that never fail.
//! - [`StdIn`] and [`StdOut`] are the sides of the system, of whose bytes nothing is told.
//! - [`read_all`] and [`write_all`] move a whole text.
//! - [`Job`] is work for a thread, and [`Spawner`] starts and joins jobs; what it gives and counts is its contract.
//! - [`Sure`] refuses no start, [`Listed`] chosen ones, and [`Real`] those for which the system has no thread.
#![tactic(auto)]

mod buffer;
mod bytes;
mod handing;
mod job;
mod listed;
mod moving;
mod real;
mod running;
mod sink;
mod source;
mod spawner;
mod standard;
mod sure;

pub use buffer::{Buffer, SureBuffer};
pub use bytes::{Bytes, SureBytes};
pub use job::Job;
pub use listed::Listed;
pub use moving::{ReadFail, read_all, write_all};
pub use real::Real;
pub use running::Running;
pub use sink::{Pushed, Sink};
pub use source::{Pulled, Source};
pub use spawner::Spawner;
pub use standard::{StdIn, StdOut};
pub use sure::Sure;
