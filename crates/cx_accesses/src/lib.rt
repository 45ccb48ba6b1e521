//! The two parts of a text that stand behind a scenario for a race report: a record that more follows, and the accesses to plain variables.
//!
//! [`parse_part`] reads the record, [`parse_accesses`] the list of accesses behind it.
//! What the lines of accesses mean stands in `specs/AccessLines.antt` and `specs/AccessesMeant.antt`, what the front of a text means as a record in `specs/RecordPart.antt`.
#![tactic(auto)]

mod accesses;
mod names;
mod parsing;
mod part;
mod reader;
mod said;

pub use accesses::Accesses;
pub use parsing::parse_accesses;
pub use part::parse_part;
