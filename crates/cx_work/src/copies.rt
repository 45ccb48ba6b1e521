//! A copy of a scenario, for the threads to share.
ghost use Rattle.std.specs.Prelude.{◌≡◌, map, true, IfOk};
ghost use Rattle.std.specs.List.{list_all};
ghost use Rattle.cx_scene.specs.Scene.{scene_of};
ghost use Rattle.cx_asks.specs.Scenes.{is_object_now};
ghost use Rattle.cx_work.specs.RunNow.{IsRunNow, is_call_now};

use cx_names::NoMemory;
use cx_scene::{Call, Object, Plan};
use std::alloc::Global;

/// A plan that says the same.
pub(crate) fn copy_of(alloc: Global, plan: &Plan) -> Result<Plan, NoMemory>
    requires { IsRunNow (scene_of plan.now) }
    ensures { IfOk result (λ r. scene_of r ≡ scene_of plan.now) }
{
    Ok(Plan {
        version: plan.version,
        threads: Vec::from_slice(alloc, plan.threads.as_slice())?,
        objects: objects_of(alloc, plan.objects.as_slice())?,
        callbacks: Vec::new(alloc),
        bodies: bodies_of(alloc, plan.bodies.as_slice())?,
    })
}

fn objects_of(alloc: Global, objects: &[Object]) -> Result<Vec<Object>, NoMemory>
    requires { list_all is_object_now objects.now ≡ true }
    ensures { IfOk result (λ r. r.items ≡ objects.now) }
{
    let mut copies = Vec::with_capacity(alloc, objects.len())?;
    for object in objects {
        copies.push(copy_of_object(object))?;
    }
    Ok(copies)
}

fn bodies_of(alloc: Global, bodies: &[Vec<Call>]) -> Result<Vec<Vec<Call>>, NoMemory>
    requires { list_all (λ body. list_all is_call_now body) (map (λ b. b.items) bodies.now) ≡ true }
    ensures { IfOk result (λ r. map (λ b. b.items) r.items ≡ map (λ b. b.items) bodies.now) }
{
    let mut copies = Vec::with_capacity(alloc, bodies.len())?;
    for body in bodies {
        copies.push(calls_of(alloc, body.as_slice())?)?;
    }
    Ok(copies)
}

fn calls_of(alloc: Global, calls: &[Call]) -> Result<Vec<Call>, NoMemory>
    requires { list_all is_call_now calls.now ≡ true }
    ensures { IfOk result (λ r. r.items ≡ calls.now) }
{
    let mut copies = Vec::with_capacity(alloc, calls.len())?;
    for call in calls {
        copies.push(copy_of_call(call))?;
    }
    Ok(copies)
}

fn copy_of_object(object: &Object) -> Object
    requires { is_object_now object.now ≡ true }
    ensures { result ≡ object.now }
{
    match object {
        Object::Mutex { numbers } => Object::Mutex { numbers: *numbers },
        Object::Recursive => Object::Recursive,
        Object::Semaphore { count, max } => Object::Semaphore {
            count: *count,
            max: *max,
        },
        Object::Latch { count } => Object::Latch { count: *count },
        Object::Shared => Object::Shared,
        Object::Once => Object::Once,
        Object::Barrier { count, small } => Object::Barrier {
            count: *count,
            small: *small,
        },
        _ => unreachable!(),
    }
}

fn copy_of_call(call: &Call) -> Call
    requires { is_call_now call.now ≡ true }
    ensures { result ≡ call.now }
{
    match call {
        Call::Lock(o) => Call::Lock(*o),
        Call::LockRecursive(o) => Call::LockRecursive(*o),
        Call::TryLock(o) => Call::TryLock(*o),
        Call::TryLockRecursive(o) => Call::TryLockRecursive(*o),
        Call::Unlock(o) => Call::Unlock(*o),
        Call::LockAll(os) => Call::LockAll(os.copied()),
        Call::TryLockAll(os) => Call::TryLockAll(os.copied()),
        Call::Release(q, n) => Call::Release(*q, *n),
        Call::Acquire(q) => Call::Acquire(*q),
        Call::TryAcquire(q) => Call::TryAcquire(*q),
        Call::CountDown(l, n) => Call::CountDown(*l, *n),
        Call::WaitLatch(l) => Call::WaitLatch(*l),
        Call::TryWait(l) => Call::TryWait(*l),
        Call::ArriveAndWaitLatch(l) => Call::ArriveAndWaitLatch(*l),
        Call::LockShared(o) => Call::LockShared(*o),
        Call::TryLockShared(o) => Call::TryLockShared(*o),
        Call::UnlockShared(o) => Call::UnlockShared(*o),
        Call::CallOnceReturn(o) => Call::CallOnceReturn(*o),
        Call::CallOnceThrow(o, n) => Call::CallOnceThrow(*o, *n),
        Call::Arrive(b, n) => Call::Arrive(*b, *n),
        Call::WaitBarrier(b) => Call::WaitBarrier(*b),
        Call::ArriveAndWait(b) => Call::ArriveAndWait(*b),
        Call::ArriveAndDrop(b) => Call::ArriveAndDrop(*b),
        Call::Start(u) => Call::Start(*u),
        Call::Join(u) => Call::Join(*u),
        _ => unreachable!(),
    }
}
