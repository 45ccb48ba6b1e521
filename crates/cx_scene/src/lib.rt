//! Scenarios: what is declared, and the calls of each thread.
#![tactic(auto)]

mod call;
mod declared;
mod few;
mod plan;

pub use call::{Call, Predicate, Relation};
pub use declared::{Action, Callback, Function, Object, Policy, Registration, Small, Thread};
pub use few::Few;
pub use plan::Plan;
