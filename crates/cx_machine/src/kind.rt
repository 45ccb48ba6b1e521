use cx_names::{Reply, ThreadNo};

/// What an object is, and how it opens.
#[derive(Clone, Copy, Debug, PartialEq, Eq)]
pub enum Kind {
    /// A mutex, plain or recursive, that guards this many numbers.
    Mutex { recursive: bool, numbers: u8 },
    Shared,
    /// A semaphore with this counter and this greatest value.
    Semaphore { count: u32, max: u32 },
    Latch { count: u32 },
    /// A barrier whose phases expect this many arrivals.
    Barrier { count: u32 },
    Once,
    Condition,
    /// A stop state with this many sources.
    Stop { sources: u32 },
    Future,
}

/// The word of a change or a look.
#[derive(Clone, Copy, Debug, PartialEq, Eq)]
pub enum Op {
    Lock,
    TryLock,
    Unlock,
    Get,
    Set,
    Add,
    LockShared,
    TryLockShared,
    UnlockShared,
    Release,
    Acquire,
    TryAcquire,
    CountDown,
    Wait,
    TryWait,
    Arrive,
    Drop,
    Complete,
    Begin,
    Finish,
    Fail,
    Passive,
    Enter,
    NotifyOne,
    NotifyAll,
    Unblock,
    Withdraw,
    Request,
    Already,
    Another,
    Register,
    RegisterNow,
    Deregister,
    StopRequested,
    StopPossible,
    Never,
    Drained,
    Defer,
    Run,
    Ready,
}

/// One change of an object's history.
///
/// The index of a mutex's number, the count of a `release`, a `count_down` or an `arrive`, the
/// number of an exception and the ID of a callback are `a`; the value of a `set` or an `add` is
/// `b`. For the `set` of a future `a` is 0 for a value, 1 for an exception and 2 for a broken
/// promise, and `b` is its number. Every other word is the reply, and a number that isn't used
/// is 0. An ID is the number of the registering thread times 4,096 plus the number of its call.
#[derive(Clone, Copy, Debug, PartialEq, Eq)]
pub struct Entry {
    pub by: ThreadNo,
    pub op: Op,
    pub a: i64,
    pub b: i64,
    pub reply: Reply,
}

/// A look at an object, after the first `at` changes. Its words are those of a change; the phase
/// of a `wait` is `a`.
#[derive(Clone, Copy, Debug, PartialEq, Eq)]
pub struct Look {
    pub by: ThreadNo,
    pub op: Op,
    pub a: i64,
    pub b: i64,
    pub reply: Reply,
    pub at: u32,
}
