use cx_machine::{Entry, Look};
use cx_names::{ObjectNo, Reply, ThreadNo};

/// A thread is started, launched or joined; the flag says whether there was a thread to be had.
#[derive(Clone, Copy)]
pub enum Control {
    Start(ThreadNo, bool),
    Launch(ThreadNo, bool),
    Join(ThreadNo),
}

/// One item of a thread's list: a change at its position, a look, a control or the reply of a call.
#[derive(Clone, Copy)]
pub enum Item {
    Change(ObjectNo, u32, Entry),
    Look(ObjectNo, Look),
    Control(Control),
    Said(Reply),
}
