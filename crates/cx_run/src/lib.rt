//! A scenario that runs on real threads.
//!
//! [`run_on`] makes main's calls on the calling thread, starts the others by a spawner and joins them, and gives the record of what
//! each thread did. Each thread's own list is made in `cx_work`.
#![tactic(auto)]

mod handing;
mod place;
mod run;
mod scenario;

pub use scenario::{Fronts, run_on};
