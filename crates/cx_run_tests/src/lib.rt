//! Tests of scenarios on real threads, by public calls: one thread's body, and whole runs.
#![tactic(auto)]

#[cfg(test)]
mod bodies;
#[cfg(test)]
mod counting;
#[cfg(test)]
mod plans;
#[cfg(test)]
mod runs;
