//! Kinds of shared objects, each with one home.
//!
//! - `Shared`: an object of one kind with the tokens that threads have of it, and `Pooled`, one of whose
//!   state the tokens have shares. Each kind implements it in a file of its own.
//! - `Seat`: one object with a thread's token, whatever the kind.
//! - `Access`: a seat of one of the kinds, and `made`, the access of main to a new object.
//!
//! What a call made of what a thread has seen is said by the machine of all kinds (specs/AnyKind), so that
//! nothing above names a kind.
//!
//! A new kind touches:
//!
//! - its own file here: its token, how it is made, and `impl Shared`;
//! - src/access.rt: its arm of `Access` and of each match;
//! - specs/Accesses: a line for it in each definition, and specs/Tokens where its token is more than a pass;
//! - proofs/Serving: its line; proofs/access: its answers where an access acts, gives up, meets and splits;
//!   and a proof file where what is held or begun has to stay so;
//! - what may be asked of it, beside the other kinds' tables.
#![tactic(auto)]

mod access;
mod barrier;
mod latch;
mod mutex;
mod once;
mod recursive;
mod seat;
mod semaphore;
mod shared;
mod shared_mutex;

pub use access::{Access, made};
pub use barrier::BarrierToken;
pub use mutex::MutexToken;
pub use once::OnceToken;
pub use recursive::LevelToken;
pub use seat::Seat;
pub use shared::{Pooled, Shared};
pub use shared_mutex::{Owned, SharedToken};
