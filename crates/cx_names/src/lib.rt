//! What all crates share: the numbers of threads, objects and callbacks, outcomes, replies and
//! their words, errors, and limits.
#![tactic(auto)]

ghost use Rattle.cx_names.specs.Replies.{RepliesAreEqual};

mod errors;
mod limits;
mod words;

pub use errors::{Errc, FutureErrc, NoMemory};
pub use limits::{
    BARRIER_COUNT, BODY_CALLS, CALLBACKS, CALLS, CHECK_BYTES, HISTORY, LATCH_COUNT, LEVELS,
    LINE_BYTES, NAME_BYTES, NUMBERS, OBJECTS, PASS_CHANGES, SCENARIO_BYTES, SEMAPHORE_MAX, THREADS,
};

/// The number of a thread: 0 is `main`.
#[derive(Clone, Copy, Debug, PartialEq, Eq)]
pub struct ThreadNo(pub u32);

/// The number of an object, in order of its declaration.
#[derive(Clone, Copy, Debug, PartialEq, Eq)]
pub struct ObjectNo(pub u32);

/// The number of a callback, in order of its declaration.
#[derive(Clone, Copy, Debug, PartialEq, Eq)]
pub struct CallbackNo(pub u32);

/// What a future is ready with.
#[derive(Clone, Copy, Debug, PartialEq, Eq)]
pub enum Outcome {
    /// A value.
    Value(i64),
    /// An exception, by its number.
    Exception(u32),
    /// The promise was abandoned before it was satisfied.
    Broken,
}

/// What a call or an act answers.
#[derive(Clone, Copy, Debug, PartialEq, Eq)]
pub enum Reply {
    Ok,
    True,
    False,
    Over,
    OverExpected,
    MaxLevels,
    Overflow,
    Made,
    Already,
    Queued,
    Ran,
    Never,
    Removed,
    Inside,
    NotHeld,
    Returned,
    Passive,
    NoToken,
    Spent,
    NoThread,
    Launched,
    Deferred,
    /// No thread was notified, since none waits.
    Nobody,
    NoState,
    PromiseAlreadySatisfied,
    FutureAlreadyRetrieved,
    OperationNotPermitted,
    ResourceDeadlockWouldOccur,
    InvalidArgument,
    Number(i64),
    Thread(ThreadNo),
    /// The function of `call_once` threw the exception of this number.
    Threw(u32),
    Outcome(Outcome),
}

/// The turns that a thread may take: a turn is a wake from a wait with a predicate whose test then
/// fails, or a back-off of a call that locks several mutexes.
pub const TURNS: u32 = 16_384;

/// The turns that a thread has taken so far; never more than `TURNS`.
#[derive(Clone, Copy, Debug, PartialEq, Eq)]
pub struct Turns {
    pub used: u32,
}

/// Replies that are the same by the test of the specifications are equal.
pub fn replies_are_equal()
    ensures { RepliesAreEqual }
{}
