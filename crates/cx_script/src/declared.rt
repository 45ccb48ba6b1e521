use cx_names::{ObjectNo, ThreadNo};
use cx_scene::{Action, Few, Function, Policy, Small};

/// What a declaration says of its name.
#[derive(Drop)]
pub enum Declared {
    Thread,
    JThread,
    Async(Policy, Function),
    Mutex(u32),
    Recursive,
    Shared,
    Semaphore(u32, u32),
    Latch(u32),
    Barrier(u32, Option<Small>),
    Once,
    Condition,
    Stop(Few),
    Callback(ObjectNo, Action),
    Promise(ThreadNo, ThreadNo),
    SharedPromise(ThreadNo, Few),
    Task(ThreadNo, ThreadNo, Function),
}
