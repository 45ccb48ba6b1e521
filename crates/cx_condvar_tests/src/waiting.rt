ghost use Rattle.std.specs.Prelude.{◌≡◌, ◌≤◌};
ghost use Rattle.std.specs.Arc.{arc_value};
ghost use Rattle.cx_turn.specs.declared.view.View.{View};
ghost use Rattle.cx_condvar.specs.Condvars.{IsCondPass, IsOut};
ghost use Rattle.cx_condvar_tests.specs.MayWait.{MayWait, MayWaitShared};

use cx_condvar::{CondPass, CondvarAny, Waits};
use cx_mutex::{Mutex, MutexPass};
use cx_names::NoMemory;
use cx_shared_mutex::{SharedMutex, SharedPass};
use cx_turn::Lockable;
use std::alloc::Global;
use std::sync::{Arc, Wait};
use std::test::Fail;
use std::thread;
use std::thread::{JoinHandle, Threads};

const CHANGES: u32 = 200_000_000;

// Takes the lock, waits, and gives it up.
fn waits_over<R: Wait, L: Lockable>(
    rt: &R,
    condition: &CondvarAny,
    pass: &mut CondPass,
    lock: &L,
    key: &mut L::Key,
) -> Waits
    requires pass { IsCondPass condition.now pass.old × IsOut condition.now pass.old × (2 ≤ pass.old.left) }
    requires key { (v : View L.M) × L.knows lock.now key.old v }
    requires bare { L.is_bare lock.now key.old }
    requires key_left { 4 ≤ L.left key.old }
{
    let (hold, _) = lock.acquire(rt, key);
    let (hold, waits) = condition.wait(rt, pass, lock, key, hold);
    lock.release(rt, key, hold);
    waits
}

// Notifies until somebody is picked, and gives where; None where no change is left.
fn rouses<R: Wait>(rt: &R, condition: &CondvarAny, pass: &mut CondPass) -> Option<u32>
    requires { IsCondPass condition.now pass.old }
{
    for _ in rt.forever() {
        if pass.left() == 0 {
            return None;
        }
        let (picked, at) = condition.notify_one(rt, pass);
        if picked.is_some() {
            return Some(at);
        }
    }
    None
}

// A thread that waits over a mutex.
fn waiter<R: Threads + Wait + Copy + Send + 'static>(
    rt: &R,
    condition: Arc<CondvarAny, Global>,
    pass: CondPass,
    mutex: Mutex,
    key: MutexPass,
) -> Option<JoinHandle<Waits>>
    requires { MayWait (arc_value condition) pass mutex key }
{
    let inner = *rt;
    thread::spawn(
        rt,
        move || -> Waits
            requires { MayWait (arc_value condition) pass mutex key }
        {
            let mut mine = pass;
            let mut own = key;
            waits_over(&inner, &condition, &mut mine, &mutex, &mut own)
        },
    )
    .ok()
}

// A thread that waits over a shared mutex.
fn shared_waiter<R: Threads + Wait + Copy + Send + 'static>(
    rt: &R,
    condition: Arc<CondvarAny, Global>,
    pass: CondPass,
    mutex: SharedMutex,
    key: SharedPass,
) -> Option<JoinHandle<Waits>>
    requires { MayWaitShared (arc_value condition) pass mutex key }
{
    let inner = *rt;
    thread::spawn(
        rt,
        move || -> Waits
            requires { MayWaitShared (arc_value condition) pass mutex key }
        {
            let mut mine = pass;
            let mut own = key;
            waits_over(&inner, &condition, &mut mine, &mutex, &mut own)
        },
    )
    .ok()
}

// Whether a thread went on right after it was notified at this position, and gave its lock up in between.
fn went_on(roused: Option<u32>, waits: Option<Waits>) -> bool {
    match (roused, waits) {
        (Some(at), Some(waits)) => {
            waits.enter < at
                && waits.unblock.checked_sub(at) == Some(1)
                && waits.unlock == 1
                && waits.lock == 2
        }
        _ => false,
    }
}

// A thread waits over a mutex, and this one notifies it.
fn one_waits<R: Threads + Wait + Copy + Send + 'static>(
    rt: &R,
    alloc: Global,
) -> Result<bool, NoMemory> {
    let (condition, mut first) = CondvarAny::new(alloc, 2, CHANGES)?;
    let pass = condition.split(&mut first, 2);
    let condition = Arc::new(alloc, condition)?;
    let theirs = Arc::try_clone(&condition)?;
    let (mutex, key) = Mutex::new(alloc, 0, 1, 4)?;
    match waiter(rt, theirs, pass, mutex, key) {
        Some(waiter) => {
            let roused = rouses(rt, &condition, &mut first);
            Ok(went_on(roused, Some(waiter.join(rt))))
        }
        None => Ok(false),
    }
}

// A thread waits over a shared mutex, and this one notifies it.
fn one_waits_shared<R: Threads + Wait + Copy + Send + 'static>(
    rt: &R,
    alloc: Global,
) -> Result<bool, NoMemory> {
    let (condition, mut first) = CondvarAny::new(alloc, 2, CHANGES)?;
    let pass = condition.split(&mut first, 2);
    let condition = Arc::new(alloc, condition)?;
    let theirs = Arc::try_clone(&condition)?;
    let (mutex, key) = SharedMutex::new(alloc, 1, 4)?;
    match shared_waiter(rt, theirs, pass, mutex, key) {
        Some(waiter) => {
            let roused = rouses(rt, &condition, &mut first);
            Ok(went_on(roused, Some(waiter.join(rt))))
        }
        None => Ok(false),
    }
}

#[test]
fn a_thread_waits_over_a_mutex(rt: HostRuntime) -> Result<(), Fail> {
    for _ in 0..100 {
        assert!(rt; one_waits(&rt, rt.alloc())?);
    }
    Ok(())
}

#[test]
fn a_thread_waits_over_a_shared_mutex(rt: HostRuntime) -> Result<(), Fail> {
    for _ in 0..100 {
        assert!(rt; one_waits_shared(&rt, rt.alloc())?);
    }
    Ok(())
}
