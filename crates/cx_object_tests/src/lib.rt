//! Tests of machines, turns, cells, mutexes, shared mutexes, semaphores, latches, once flags and barriers,
//! by their public calls; and a caller of two recursive mutexes, which is proved from their contracts
//! alone.
#![tactic(auto)]

#[cfg(test)]
mod barrier;
#[cfg(test)]
mod cell;
mod coupling;
#[cfg(test)]
mod machine;
#[cfg(test)]
mod mutex;
#[cfg(test)]
mod once;
#[cfg(test)]
mod shared_mutex;
#[cfg(test)]
mod shared_threads;
#[cfg(test)]
mod states;
#[cfg(test)]
mod sync;
#[cfg(test)]
mod turn;

pub use coupling::hand_over;
