use crate::form::{Form, Forms};
use cx_names::{ObjectNo, Reply, ThreadNo};
use cx_scene::{Few, Policy, Predicate};

/// A stop-aware wait: its objects, its test, its ID, and whether that is registered.
#[derive(Clone, Copy)]
pub struct StopWait {
    pub condition: ObjectNo,
    pub mutex: ObjectNo,
    pub stop: ObjectNo,
    pub test: Predicate,
    pub id: u32,
    pub queued: bool,
}

/// A part of a call: most calls are one act and its reply, the others have a name for each place
/// where they may go on in two ways.
#[derive(Drop)]
pub enum Task {
    /// One of these acts.
    Makes(Forms),
    /// One of these acts, and its reply as the call's.
    Answers(Forms),
    /// The call's reply.
    Says(Reply),
    /// The three arrivals, and the completion that may, or must, follow.
    Arrives(ObjectNo, u32),
    ArrivesAndWaits(ObjectNo),
    ArrivesAndDrops(ObjectNo),
    Completes(ObjectNo, bool),
    /// `call_once`, with what its function does.
    CallsOnce(ObjectNo, Form, Reply),
    /// `lock_all` from its first mutex on, and with k of them locked; `try_lock_all` with k locked.
    LocksFrom(Few),
    LocksRest(Few, u32),
    TriesAll(Few, u32),
    /// `wait_pred` at its test.
    Tests(ObjectNo, ObjectNo, Predicate),
    /// `wait_stop`: registers, asks the stop, tests, tests for the last time, asks again once it has entered.
    RegistersWait(StopWait),
    AsksStop(StopWait),
    TestsStop(StopWait),
    TestsLast(StopWait),
    AsksAgain(StopWait),
    /// A request, with a reply or at a body's end, and its callbacks until none is left.
    Requests(ObjectNo, bool),
    Drains(ObjectNo, bool),
    /// `register`, and a launch that may be deferred.
    Registers(ObjectNo, u32),
    Launches(ObjectNo, ThreadNo, Policy),
}
