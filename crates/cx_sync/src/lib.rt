//! Semaphores, latches and once flags, each on a cell.
#![tactic(auto)]

mod latch;
mod once;
mod semaphore;

pub use latch::{Latch, LatchPass};
pub use once::{Active, Begun, Once3, OnceFlag, OncePass};
pub use semaphore::{Over, Semaphore, SemaphorePass, Taking};
