//! What is called round each call of a text.
use cx_names::ThreadNo;

/// Called before and after each call of a thread's text, on the thread that makes it. Threads share a gate
/// that is `Send` and `Sync`. A gate may wait, and then so does the thread.
pub trait Gate: Drop + 'static {
    /// Thread `thread` is about to make call `call` of its text, counted from 0.
    fn before(&self, thread: ThreadNo, call: u32);

    /// Thread `thread` has made call `call` of its text, counted from 0.
    fn after(&self, thread: ThreadNo, call: u32);
}

/// A gate that does nothing.
#[derive(Drop)]
pub struct Open;

impl Gate for Open {
    fn before(&self, thread: ThreadNo, call: u32) {
        let _ = (thread, call);
    }

    fn after(&self, thread: ThreadNo, call: u32) {
        let _ = (thread, call);
    }
}
