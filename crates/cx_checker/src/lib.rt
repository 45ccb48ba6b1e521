//! The checker: whether a record is legal and follows its text, and else its first flaw.
#![tactic(auto)]

mod by_object;
mod checking;
mod falling;
mod history;
mod known;
mod looks;
mod marking;
mod objects;
mod owing;
mod places;
mod placing;
mod showing;
mod texts;
mod verdicts;

pub use by_object::{Change, Changes};
pub use checking::{Verdict, check_record};
pub use history::History;
