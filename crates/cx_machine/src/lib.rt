//! The machines of the objects: which changes and looks a history allows.
#![tactic(auto)]

mod barrier;
mod condition;
mod future;
mod ids;
mod kind;
mod latch;
mod machine;
mod mutex;
mod number;
mod once;
mod registry;
mod semaphore;
mod sets;
mod shared;
mod state;
mod stop;

pub use barrier::{BarrierMachine, BarrierState};
pub use condition::{ConditionMachine, ConditionState};
pub use future::{FutureMachine, FutureState};
pub use kind::{Entry, Kind, Look, Op};
pub use latch::{LatchMachine, LatchState};
pub use machine::{Machine, Meaning};
pub use mutex::{MutexMachine, MutexState};
pub use number::small;
pub use once::{OnceMachine, OnceState};
pub use registry::{Callback, StopRegistry};
pub use semaphore::{SemaphoreMachine, SemaphoreState};
pub use shared::{SharedMachine, SharedState};
pub use state::State;
pub use stop::{Running, StopMachine, StopState};
