//! Tests of stop states, by their public calls.
#![tactic(auto)]

#[cfg(test)]
mod callers;
#[cfg(test)]
mod calls;
#[cfg(test)]
mod numbered;
#[cfg(test)]
mod rows;
#[cfg(test)]
mod singles;
#[cfg(test)]
mod two_threads;
