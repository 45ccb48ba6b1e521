//! Tests of the edge of the program and of threads, by their public calls.
#![tactic(auto)]

#[cfg(test)]
mod beside;
#[cfg(test)]
mod moving;
#[cfg(test)]
mod spawners;
#[cfg(test)]
mod thread;
