//! Cells: a machine's state and a queue of sleeping callers, behind one turn.
//!
//! - `Cell`: the state with its queue. A call on it makes a change or a look as soon as, or if, the
//!   state allows it.
//! - `Queued`: a state with its queue, which is a machine with the same meaning; `Kept` is what it
//!   points at.
//! - `Wish`, `Waiter`: what a caller waits for, and a caller in the queue.
#![tactic(auto)]

mod attempt;
mod called;
mod calls;
mod cell;
mod next;
mod offer;
mod queued;
mod wish;

pub use cell::Cell;
pub use queued::{Kept, Queued};
pub use wish::{Waiter, Wish};
