use crate::few::Few;
use cx_machine::Kind;
use cx_names::{CallbackNo, ObjectNo, Outcome, ThreadNo};

/// What a task or an async computes.
#[derive(Clone, Copy)]
pub enum Function {
    Return(i64),
    Throw(u32),
}

impl Function {
    ghost use Rattle.std.specs.Prelude.{◌≡◌};
    ghost use Rattle.cx_scene.specs.Scene.{outcome_of};

    /// What its future is ready with.
    pub fn outcome(self) -> Outcome
        ensures { result ≡ outcome_of self }
    {
        match self {
            Function::Return(value) => Outcome::Value(value),
            Function::Throw(exception) => Outcome::Exception(exception),
        }
    }
}

/// When an async runs.
#[derive(Clone, Copy)]
pub enum Policy {
    Async,
    Deferred,
    Both,
}

/// The one act of a callback or a completion.
#[derive(Clone, Copy)]
pub enum Small {
    Release(ObjectNo, u32),
    NotifyOne(ObjectNo),
    NotifyAll(ObjectNo),
}

/// A declared object.
#[derive(Drop)]
pub enum Object {
    Mutex {
        numbers: u8,
    },
    Recursive,
    Shared,
    Semaphore {
        count: u32,
        max: u32,
    },
    Latch {
        count: u32,
    },
    Barrier {
        count: u32,
        small: Option<Small>,
    },
    Once,
    Condition,
    Stop {
        holders: Few,
    },
    StopOfThread,
    Promise {
        owner: ThreadNo,
        reader: ThreadNo,
    },
    SharedPromise {
        owner: ThreadNo,
        readers: Few,
    },
    Task {
        owner: ThreadNo,
        reader: ThreadNo,
        function: Function,
    },
    Async {
        policy: Policy,
        function: Function,
        thread: ThreadNo,
    },
}

impl Object {
    ghost use Rattle.std.specs.Prelude.{◌≡◌};
    ghost use Rattle.cx_scene.specs.Scene.{kind_of};

    /// Its kind, and how it opens.
    pub fn kind(&self) -> Kind
        ensures { result ≡ kind_of self.now }
    {
        match self {
            Object::Mutex { numbers } => Kind::Mutex {
                recursive: false,
                numbers: *numbers,
            },
            Object::Recursive => Kind::Mutex {
                recursive: true,
                numbers: 0,
            },
            Object::Shared => Kind::Shared,
            Object::Semaphore { count, max } => Kind::Semaphore {
                count: *count,
                max: *max,
            },
            Object::Latch { count } => Kind::Latch { count: *count },
            Object::Barrier { count, .. } => Kind::Barrier { count: *count },
            Object::Once => Kind::Once,
            Object::Condition => Kind::Condition,
            Object::Stop { holders } => Kind::Stop {
                sources: holders.len() as u32,
            },
            Object::StopOfThread => Kind::Stop { sources: 1 },
            Object::Promise { .. }
            | Object::SharedPromise { .. }
            | Object::Task { .. }
            | Object::Async { .. } => Kind::Future,
        }
    }
}

/// A thread: started, started with a stop state, or launched for an async.
#[derive(Clone, Copy)]
pub enum Thread {
    Plain,
    Stoppable(ObjectNo),
    Launched(ObjectNo),
}

/// What a callback does.
#[derive(Clone, Copy)]
pub enum Action {
    Small(Small),
    Deregister,
}

/// A declared callback.
#[derive(Clone, Copy)]
pub struct Callback {
    pub stop: ObjectNo,
    pub action: Action,
}

/// What an ID names: a callback that a call registers, or a stop-aware wait by its condition
/// and its stop state.
#[derive(Clone, Copy)]
pub enum Registration {
    OfCallback(CallbackNo),
    OfWait(ObjectNo, ObjectNo),
}
