use crate::few::Few;
use cx_names::{CallbackNo, ObjectNo, ThreadNo};

/// How two numbers are compared.
#[derive(Clone, Copy)]
pub enum Relation {
    Less,
    AtMost,
    Equal,
    Unequal,
    AtLeast,
    Greater,
}

impl Relation {
    ghost use Rattle.std.specs.Prelude.{◌≡◌};
    ghost use Rattle.cx_scene.specs.Scene.{holds};

    /// Whether `x` stands in this relation to `value`.
    pub fn holds(self, x: i64, value: i64) -> bool
        ensures { result ≡ holds x self value }
    {
        match self {
            Relation::Less => x < value,
            Relation::AtMost => x <= value,
            Relation::Equal => x == value,
            Relation::Unequal => x != value,
            Relation::AtLeast => value <= x,
            Relation::Greater => value < x,
        }
    }
}

/// A test of one number of a mutex.
#[derive(Clone, Copy)]
pub struct Predicate {
    pub number: u32,
    pub relation: Relation,
    pub value: i64,
}

/// A call of a body.
#[derive(Drop)]
pub enum Call {
    Lock(ObjectNo),
    LockRecursive(ObjectNo),
    LockShared(ObjectNo),
    TryLock(ObjectNo),
    TryLockRecursive(ObjectNo),
    TryLockShared(ObjectNo),
    Unlock(ObjectNo),
    UnlockShared(ObjectNo),
    Get(ObjectNo, u32),
    Set(ObjectNo, u32, i64),
    Add(ObjectNo, u32, i64),
    LockAll(Few),
    TryLockAll(Few),
    Release(ObjectNo, u32),
    Acquire(ObjectNo),
    TryAcquire(ObjectNo),
    CountDown(ObjectNo, u32),
    WaitLatch(ObjectNo),
    TryWait(ObjectNo),
    ArriveAndWaitLatch(ObjectNo),
    Arrive(ObjectNo, u32),
    WaitBarrier(ObjectNo),
    ArriveAndWait(ObjectNo),
    ArriveAndDrop(ObjectNo),
    CallOnceReturn(ObjectNo),
    CallOnceThrow(ObjectNo, u32),
    WaitCondition(ObjectNo, ObjectNo),
    WaitPredicate(ObjectNo, ObjectNo, Predicate),
    WaitStop(ObjectNo, ObjectNo, ObjectNo, Predicate),
    NotifyOne(ObjectNo),
    NotifyAll(ObjectNo),
    RequestStop(ObjectNo),
    StopRequested(ObjectNo),
    StopPossible(ObjectNo),
    Another(ObjectNo),
    DropSource(ObjectNo),
    Register(CallbackNo),
    Deregister(CallbackNo),
    SetValue(ObjectNo, i64),
    SetException(ObjectNo, u32),
    Invoke(ObjectNo),
    DropPromise(ObjectNo),
    GetFuture(ObjectNo),
    Share(ObjectNo),
    WaitFuture(ObjectNo),
    GetOutcome(ObjectNo),
    DropAsync(ObjectNo),
    Start(ThreadNo),
    Join(ThreadNo),
    Launch(ObjectNo),
}
