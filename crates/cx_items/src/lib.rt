//! Items of a record, and what the next item of a thread may be.
#![tactic(auto)]

mod agenda;
mod calls;
mod end;
mod fit;
mod form;
mod forms;
mod item;
mod kept;
mod local;
mod memory;
mod room;
mod step;
mod task;

pub use form::{Form, Forms, Wanted};
pub use item::{Control, Item};
pub use local::Local;
pub use task::{StopWait, Task};
