//! A stop state with its sources and callbacks [thread.stoptoken], under a turn.
//!
//! - `StopState`: the state, with the standard's calls and the single acts that they are made of. A request
//!   runs its callbacks with the turn free.
//! - `StopToken`: refers to a stop state, or to none.
//! - `StopPass`: a caller's token on it.
//! - `StopSource`: sources, as many as it holds.
//! - `StopCallback`: the registration of a callback.
//! - `Action`: what is run as a callback. `Runs`: what runs callbacks.
#![tactic(auto)]

mod action;
mod acts;
mod asks;
mod deregister;
mod kept;
mod laws;
mod pass;
mod register;
mod request;
mod runner;
mod runs;
mod sources;
mod state;
mod steps;
mod token;

pub use action::Action;
pub use deregister::Deregistered;
pub use kept::{Joiner, Kept, Stored};
pub use laws::callbacks_settle;
pub use pass::{StopCallback, StopPass, StopSource};
pub use register::Registered;
pub use request::Requested;
pub use runner::Keeper;
pub use runs::Runs;
pub use state::StopState;
pub use steps::{Begun, Put};
pub use token::StopToken;
