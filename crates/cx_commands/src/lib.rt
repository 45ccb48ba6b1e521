//! The program's commands: runs scenario texts on real threads or replays them, writes what happened, and checks such records.
//!
//! [`cxthread`] does what the words of a command line ask for. With the word `run`, or `replay` and a seed after it or none,
//! a scenario is read, and its canonical text and a record are written. With `check` a scenario and a record are read, and
//! the verdict is written. With `make` and a number a scenario of so many items is written. With `races` a scenario, a record and
//! accesses to plain variables are read, and which of these race is written. Each command is a call of its own over any source
//! and sink: [`run_call`], [`replay_call`], [`check_call`], [`make_call`] and [`races_call`]; how it ended is a [`Status`].
#![tactic(auto)]

mod checking;
mod fault_line;
mod flaw_line;
mod making;
mod racing;
mod replaying;
mod running;
mod status;
mod top;

pub use checking::check_call;
pub use making::make_call;
pub use racing::races_call;
pub use replaying::replay_call;
pub use running::run_call;
pub use status::Status;
pub use top::cxthread;
