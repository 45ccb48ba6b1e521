//! Threads that are started by a spawner and joined once.
//!
//! - [`Thread`] is a thread with its number; [`Thread::start`] starts it, and [`Thread::join`] waits for its end.
#![tactic(auto)]

mod thread;

pub use thread::Thread;
