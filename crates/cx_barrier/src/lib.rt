//! Barriers, on cells.
//!
//! - `Barrier`: a barrier, with the standard's calls and the single acts that they are made of.
//! - `BarrierPass`: a caller's token on one barrier. It tells the phase of its last arrival.
//! - `Completion`: what is done when a phase completes, once, by the thread that arrived last.
//! - `Arrival`: a phase to wait for. `Completing`: a phase that its thread is to complete.
#![tactic(auto)]

mod acts;
mod barrier;
mod calls;
mod completion;
mod pass;

pub use acts::{Arrival, Completing, Counted, OverExpected};
pub use barrier::Barrier;
pub use calls::Arrived;
pub use completion::Completion;
pub use pass::BarrierPass;
