//! Scenarios: a text is read line by line, once, and written in its canonical form.
//!
//! `read` gives the scenario that a text means or the first fault of the text, `read_part` the same for the front of a text that
//! goes on, and [`Scenario`] its plan by numbers, its names by numbers and its canonical text.
//! What is kept of the lines before (`Reader`) is a digest of them; `specs/Steps.antt` says how one line more changes it, and
//! `proofs/` that the fault found by it is the fault after the earlier lines.
#![tactic(auto)]

mod body;
mod checks;
mod declaration;
mod declared;
mod finishing;
mod front;
mod groups;
mod kept;
mod making;
mod names;
mod numbering;
mod once;
mod place;
mod reader;
mod reading;
mod resolving;
mod roll;
mod said;
mod scenario;
mod takings;
mod writing;

pub use making::make;
pub use reading::ReadErr;
pub use scenario::{Scenario, read, read_part};
