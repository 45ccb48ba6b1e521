//! Scenarios that are run.
ghost use Rattle.std.specs.Prelude.{◌≡◌, true, vec_len, IfOk};
ghost use Rattle.cx_scene.specs.Scene.{scene_of};
ghost use Rattle.cx_run_tests.specs.Runnable.{is_runnable};

use cx_names::{NoMemory, ObjectNo, ThreadNo};
use cx_scene::{Call, Object, Plan, Thread};
use std::alloc::Global;

pub(crate) const A: ThreadNo = ThreadNo(1);

pub(crate) const B: ThreadNo = ThreadNo(2);

pub(crate) const MUTEX: ObjectNo = ObjectNo(0);

pub(crate) const SEMAPHORE: ObjectNo = ObjectNo(1);

pub(crate) const LATCH: ObjectNo = ObjectNo(2);

/// Main makes no call, and `a` makes calls on a mutex, a semaphore and a latch.
pub(crate) fn one_works(alloc: Global) -> Result<Plan, NoMemory>
    ensures runs { IfOk result (λ p. is_runnable (scene_of p) ≡ true) }
    ensures threads { IfOk result (λ p. vec_len p.threads ≡ 2) }
{
    let objects = [
        Object::Mutex { numbers: 0 },
        Object::Semaphore { count: 0, max: 1 },
        Object::Latch { count: 1 },
    ];
    let body = [
        Call::Lock(MUTEX),
        Call::Unlock(MUTEX),
        Call::TryLock(MUTEX),
        Call::Release(SEMAPHORE, 2),
        Call::Release(SEMAPHORE, 1),
        Call::Acquire(SEMAPHORE),
        Call::TryWait(LATCH),
        Call::CountDown(LATCH, 1),
        Call::WaitLatch(LATCH),
    ];
    let body = Vec::from_array(alloc, body)?;
    Ok(Plan {
        version: 1,
        threads: Vec::from_array(alloc, [Thread::Plain, Thread::Plain])?,
        objects: Vec::from_array(alloc, objects)?,
        callbacks: Vec::new(alloc),
        bodies: Vec::from_array(alloc, [Vec::new(alloc), body])?,
    })
}

/// Two threads; the second one's text takes 3 of the latch's 4.
pub(crate) fn a_shared_latch(alloc: Global) -> Result<Plan, NoMemory>
    ensures runs { IfOk result (λ p. is_runnable (scene_of p) ≡ true) }
    ensures threads { IfOk result (λ p. vec_len p.threads ≡ 2) }
{
    let objects = [Object::Recursive, Object::Latch { count: 4 }];
    let latch = ObjectNo(1);
    let main = [Call::Start(A), Call::CountDown(latch, 1), Call::Join(A)];
    let other = [
        Call::LockRecursive(ObjectNo(0)),
        Call::CountDown(latch, 2),
        Call::ArriveAndWaitLatch(latch),
    ];
    let main = Vec::from_array(alloc, main)?;
    let other = Vec::from_array(alloc, other)?;
    Ok(Plan {
        version: 1,
        threads: Vec::from_array(alloc, [Thread::Plain, Thread::Plain])?,
        objects: Vec::from_array(alloc, objects)?,
        callbacks: Vec::new(alloc),
        bodies: Vec::from_array(alloc, [main, other])?,
    })
}

/// Main waits for what `a` releases, and both lock a mutex.
pub(crate) fn one_after_the_other(alloc: Global) -> Result<Plan, NoMemory>
    ensures runs { IfOk result (λ p. is_runnable (scene_of p) ≡ true) }
    ensures threads { IfOk result (λ p. vec_len p.threads ≡ 2) }
{
    let objects = [
        Object::Mutex { numbers: 0 },
        Object::Semaphore { count: 0, max: 1 },
    ];
    let main = [
        Call::Start(A),
        Call::Acquire(SEMAPHORE),
        Call::Lock(MUTEX),
        Call::Unlock(MUTEX),
        Call::Join(A),
    ];
    let other = [
        Call::Lock(MUTEX),
        Call::Unlock(MUTEX),
        Call::Release(SEMAPHORE, 1),
    ];
    let main = Vec::from_array(alloc, main)?;
    let other = Vec::from_array(alloc, other)?;
    Ok(Plan {
        version: 1,
        threads: Vec::from_array(alloc, [Thread::Plain, Thread::Plain])?,
        objects: Vec::from_array(alloc, objects)?,
        callbacks: Vec::new(alloc),
        bodies: Vec::from_array(alloc, [main, other])?,
    })
}

/// Main releases two units; two threads acquire one each, and lock the same mutex.
pub(crate) fn two_units(alloc: Global) -> Result<Plan, NoMemory>
    ensures runs { IfOk result (λ p. is_runnable (scene_of p) ≡ true) }
    ensures threads { IfOk result (λ p. vec_len p.threads ≡ 3) }
{
    let objects = [
        Object::Mutex { numbers: 0 },
        Object::Semaphore { count: 0, max: 2 },
    ];
    let main = [
        Call::Start(A),
        Call::Start(B),
        Call::Release(SEMAPHORE, 2),
        Call::Join(A),
        Call::Join(B),
    ];
    let main = Vec::from_array(alloc, main)?;
    let a = [
        Call::Acquire(SEMAPHORE),
        Call::Lock(MUTEX),
        Call::Unlock(MUTEX),
    ];
    let a = Vec::from_array(alloc, a)?;
    let b = [
        Call::Acquire(SEMAPHORE),
        Call::Lock(MUTEX),
        Call::Unlock(MUTEX),
    ];
    let b = Vec::from_array(alloc, b)?;
    let threads = [Thread::Plain, Thread::Plain, Thread::Plain];
    Ok(Plan {
        version: 1,
        threads: Vec::from_array(alloc, threads)?,
        objects: Vec::from_array(alloc, objects)?,
        callbacks: Vec::new(alloc),
        bodies: Vec::from_array(alloc, [main, a, b])?,
    })
}

/// Two threads with one call each, on different semaphores.
pub(crate) fn two_calls(alloc: Global) -> Result<Plan, NoMemory>
    ensures runs { IfOk result (λ p. is_runnable (scene_of p) ≡ true) }
    ensures threads { IfOk result (λ p. vec_len p.threads ≡ 3) }
{
    let objects = [
        Object::Semaphore { count: 1, max: 1 },
        Object::Semaphore { count: 1, max: 1 },
    ];
    let main = [Call::Start(A), Call::Start(B), Call::Join(A), Call::Join(B)];
    let main = Vec::from_array(alloc, main)?;
    let a = Vec::from_array(alloc, [Call::Acquire(ObjectNo(0))])?;
    let b = Vec::from_array(alloc, [Call::Acquire(ObjectNo(1))])?;
    let threads = [Thread::Plain, Thread::Plain, Thread::Plain];
    Ok(Plan {
        version: 1,
        threads: Vec::from_array(alloc, threads)?,
        objects: Vec::from_array(alloc, objects)?,
        callbacks: Vec::new(alloc),
        bodies: Vec::from_array(alloc, [main, a, b])?,
    })
}

/// `a` makes calls on a shared mutex, a once flag and a barrier of which it alone is expected.
pub(crate) fn more_kinds(alloc: Global) -> Result<Plan, NoMemory>
    ensures runs { IfOk result (λ p. is_runnable (scene_of p) ≡ true) }
    ensures threads { IfOk result (λ p. vec_len p.threads ≡ 2) }
{
    let objects = [
        Object::Shared,
        Object::Once,
        Object::Barrier {
            count: 1,
            small: None,
        },
    ];
    let main = [Call::Start(A), Call::Join(A)];
    let other = [
        Call::LockShared(ObjectNo(0)),
        Call::UnlockShared(ObjectNo(0)),
        Call::CallOnceReturn(ObjectNo(1)),
        Call::ArriveAndWait(ObjectNo(2)),
    ];
    let main = Vec::from_array(alloc, main)?;
    let other = Vec::from_array(alloc, other)?;
    Ok(Plan {
        version: 1,
        threads: Vec::from_array(alloc, [Thread::Plain, Thread::Plain])?,
        objects: Vec::from_array(alloc, objects)?,
        callbacks: Vec::new(alloc),
        bodies: Vec::from_array(alloc, [main, other])?,
    })
}
