//! Mutexes on cells, plain and recursive.
//!
//! - `Mutex`: a mutex whose owner has a `Hold`, and the numbers that it guards. It is a `Lockable`.
//! - `RecursiveMutex`: a mutex whose owner has a `Level` for each time that it locked it.
//! - `Levels`: the levels of one thread, which are kept without memory for each.
//! - `UniqueLock`: a mutex, if there is one, and the hold of it, if it is held.
//! - `lock_all`, `try_lock_all`: two to four mutexes at once, with their `Holds`.
//! - `Tried`: what an attempt to lock came to.
#![tactic(auto)]

mod guarded;
mod levels;
mod lockable;
mod mutex;
mod recursive;
mod several;
mod unique;

pub use guarded::Overflow;
pub use levels::Levels;
pub use mutex::{Hold, Mutex, MutexPass, Tried};
pub use recursive::{Level, MaxLevels, RecursiveMutex};
pub use several::{Holds, Spent, lock_all, try_lock_all};
pub use unique::UniqueLock;
