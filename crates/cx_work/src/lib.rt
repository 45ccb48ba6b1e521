//! One thread's body on real objects.
//!
//! - `Objects`: the scenario whose objects threads share, and `Passes`: each thread's accesses to them.
//! - `Standing`: where a thread stands in its body, and the list of the items that it has made.
//! - `Gate`: what is called round each call of a text. `Open` does nothing.
//! - `Work`: the job of a thread, and `Ended`: what it gives. `room_for`: how many items a body's list has room for.
//!
//! What a thread has of one object, of whichever kind, is an `Access` of `cx_kinds`; here no kind is named but where a
//! scenario is copied.
#![tactic(auto)]

mod acting;
mod copies;
mod gate;
mod making;
mod objects;
mod standing;
mod work;

pub use gate::{Gate, Open};
pub use making::Passes;
pub use objects::Objects;
pub use standing::Standing;
pub use work::{Ended, Work, room_for};
