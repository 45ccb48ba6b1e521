//! The text of a record: what each thread did, item by item.
//!
//! `print` writes it, `parse` reads it, and `check` says whether a record is legal and follows its scenario. The meaning of a text stands in `specs/Parsed.antt`, its faults in `specs/RecordFaults.antt`, what its lines say in
//! `specs/ItemLines.antt`, and what is proved of them, as that a printed record is parsed back, in `specs/Laws.antt`.
#![tactic(auto)]

mod act;
mod checks;
mod faults;
mod item;
mod laws;
mod parsing;
mod place;
mod printing;
mod reader;
mod roster;
mod rows;
mod types;
mod values;

pub use checks::check;
pub use cx_checker::Verdict;
pub use cx_history::{Cause, Flaw, Items, List, Record, Threads};
pub use laws::{
    first_fault_is_least, no_fault_is_clean, printed_is_parsed, printed_is_read, printed_means_one,
};
pub use parsing::parse;
pub use printing::print;
pub use types::has_types;
