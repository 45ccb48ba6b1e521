//! The race report: which accesses to plain variables race by the synchronization order of a record.
//!
//! [`report`] says of each variable whether two accesses to it race, [`report_text`] writes it, and [`cycle_line`] names a point that reaches itself.
//! What a race is stands in `specs/Races.antt`, what is written in `specs/Report.antt`.
#![tactic(auto)]

mod access;
mod racing;
mod reporting;
mod sheet;
mod text;

pub use access::Access;
pub use reporting::{Pair, report};
pub use text::{cycle_line, report_text};
