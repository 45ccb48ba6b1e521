//! Tests of the crates of texts, by their public calls: replies, names by their place, lines, and scenarios.
#![tactic(auto)]

#[cfg(test)]
mod faults;
#[cfg(test)]
mod index;
#[cfg(test)]
mod limits;
#[cfg(test)]
mod long;
#[cfg(test)]
mod ranges;
#[cfg(test)]
mod replies;
#[cfg(test)]
mod scenario;
#[cfg(test)]
mod text;
#[cfg(test)]
mod told;
