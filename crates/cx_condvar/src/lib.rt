//! Condition variables over any lock, on cells.
//!
//! - `CondvarAny`: a condition, with the standard's calls and the single acts that a wait is made of.
//! - `CondPass`: a caller's token on one condition.
//! - `Entered`: what a thread has that waits, or that was notified and hasn't gone on yet.
//! - `Waits`: where the four acts of a wait stand.
//! - `Predicate`, `Predicate8`: a test of one number that a mutex guards.
//! - `Waited`: what a wait with a predicate came to. `Log`, `Logged`, `Part`: the acts that it made.
#![tactic(auto)]

mod acts;
mod condvar;
mod log;
mod predicate;
mod until;
mod wait;

pub use acts::Entered;
pub use condvar::{CondPass, CondvarAny};
pub use log::{Log, Logged, Part};
pub use predicate::{Predicate, Predicate8};
pub use until::Waited;
pub use wait::Waits;
