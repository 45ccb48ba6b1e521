//! Tests of the crates of records, by their public calls: items, the checker, the text of a record, and the replay.
#![tactic(auto)]

#[cfg(test)]
mod checker;
#[cfg(test)]
mod items;
#[cfg(test)]
mod record;
#[cfg(test)]
mod replay;
