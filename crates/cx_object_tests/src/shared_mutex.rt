ghost use Rattle.std.specs.Prelude.{◌≡◌, ◌≤◌, ◌+◌, ℕ, IfOk};
ghost use Rattle.cx_turn.specs.declared.view.View.{View};
ghost use Rattle.cx_shared_mutex.specs.SharedMutexes.{IsSharedPass, IsBare};

use cx_names::NoMemory;
use cx_shared_mutex::{SharedMutex, SharedPass, Tried};
use cx_turn::Lockable;
use std::alloc::Global;
use std::sync::Wait;
use std::test::Fail;

// A shared mutex with two passes of four changes each.
fn fresh(alloc: Global) -> Result<(SharedMutex, SharedPass, SharedPass), NoMemory>
    ensures first { IfOk result (λ t. IsSharedPass t.0 t.1 × IsBare t.0 t.1 × (4 ≤ t.1.left)) }
    ensures second { IfOk result (λ t. IsSharedPass t.0 t.2 × IsBare t.0 t.2 × (4 ≤ t.2.left)) }
{
    let (mutex, mut first) = SharedMutex::new(alloc, 2, 8)?;
    let second = mutex.split(&mut first, 4);
    Ok((mutex, first, second))
}

// The position of an attempt that locked.
fn got<H>(tried: &Tried<H>) -> Option<u32> {
    match tried {
        Tried::Got(_, at) => Some(*at),
        Tried::Not(_) => None,
    }
}

// A reader shares beside another, by an attempt.
fn two_read<R: Wait>(rt: &R, alloc: Global) -> Result<(u32, Option<u32>), NoMemory> {
    let (mutex, mut first, mut second) = fresh(alloc)?;
    let (_shared, entered) = mutex.lock_shared(rt, &mut first);
    let tried = mutex.try_lock_shared(rt, &mut second);
    Ok((entered, got(&tried)))
}

// A reader shares, another pass tries to lock, the reader leaves, and the other tries again.
fn reads<R: Wait>(rt: &R, alloc: Global) -> Result<(u32, Option<u32>, u32, Option<u32>), NoMemory> {
    let (mutex, mut first, mut second) = fresh(alloc)?;
    let (shared, entered) = mutex.lock_shared(rt, &mut first);
    match mutex.try_lock(rt, &mut second) {
        Tried::Got(..) => Ok((entered, None, 0, None)),
        Tried::Not(missed) => {
            let left = mutex.unlock_shared(rt, &mut first, shared);
            let again = mutex.try_lock(rt, &mut second);
            Ok((entered, Some(missed), left, got(&again)))
        }
    }
}

// A writer locks, another pass tries to share, the writer unlocks, and the other tries again.
fn writes<R: Wait>(
    rt: &R,
    alloc: Global,
) -> Result<(u32, Option<u32>, u32, Option<u32>), NoMemory> {
    let (mutex, mut first, mut second) = fresh(alloc)?;
    let (hold, locked) = mutex.lock(rt, &mut first);
    match mutex.try_lock_shared(rt, &mut second) {
        Tried::Got(..) => Ok((locked, None, 0, None)),
        Tried::Not(missed) => {
            let unlocked = mutex.unlock(rt, &mut first, hold);
            let again = mutex.try_lock_shared(rt, &mut second);
            Ok((locked, Some(missed), unlocked, got(&again)))
        }
    }
}

// A writer locks, and another pass tries to lock too.
fn two_write<R: Wait>(rt: &R, alloc: Global) -> Result<(Option<u32>, Option<u32>), NoMemory> {
    let (mutex, mut first, mut second) = fresh(alloc)?;
    let one = mutex.try_lock(rt, &mut first);
    let two = mutex.try_lock(rt, &mut second);
    Ok((got(&one), got(&two)))
}

// Enters as a reader, and gives the position.
fn enter<R: Wait>(rt: &R, mutex: &SharedMutex, pass: &mut SharedPass) -> u32
    requires pass { IsSharedPass mutex.now pass.old }
    requires bare { IsBare mutex.now pass.old }
    requires left { 1 ≤ pass.old.left }
    ensures idle { IsSharedPass mutex.now pass.new }
    ensures left { pass.new.left + 1 ≡ pass.old.left }
{
    let (_shared, at) = mutex.lock_shared(rt, pass);
    at
}

// A second pass sees what a reader's has seen, and is taken in. Gives how much it saw, and what is left.
fn joins<R: Wait>(rt: &R, alloc: Global) -> Result<(u32, u32, u32), NoMemory> {
    let (mutex, mut first, mut second) = fresh(alloc)?;
    let entered = enter(rt, &mutex, &mut first);
    mutex.meet(&mut first, &mut second);
    let seen = second.len();
    mutex.join(&mut first, second);
    Ok((entered, seen, first.left()))
}

// Takes a lock and gives it up.
fn once<L: Lockable, R: Wait>(lock: &L, rt: &R, key: &mut L::Key) -> (u32, u32)
    requires key { (v : View L.M) × L.knows lock.now key.old v }
    requires bare { L.is_bare lock.now key.old }
    requires left { 2 ≤ L.left key.old }
{
    let (hold, taken) = lock.acquire(rt, key);
    let given = lock.release(rt, key, hold);
    (taken, given)
}

fn lockable<R: Wait>(rt: &R, alloc: Global) -> Result<(u32, u32), NoMemory> {
    let (mutex, mut pass, _) = fresh(alloc)?;
    Ok(once(&mutex, rt, &mut pass))
}

#[test]
fn readers_share(rt: HostRuntime) -> Result<(), Fail> {
    assert!(rt; two_read(&rt, rt.alloc())? == (0, Some(1)));
    assert!(rt; joins(&rt, rt.alloc())? == (0, 1, 7));
    Ok(())
}

#[test]
fn a_reader_keeps_a_writer_out(rt: HostRuntime) -> Result<(), Fail> {
    assert!(rt; reads(&rt, rt.alloc())? == (0, Some(1), 1, Some(2)));
    Ok(())
}

#[test]
fn a_writer_keeps_all_out(rt: HostRuntime) -> Result<(), Fail> {
    assert!(rt; writes(&rt, rt.alloc())? == (0, Some(1), 1, Some(2)));
    assert!(rt; two_write(&rt, rt.alloc())? == (Some(0), None));
    Ok(())
}

#[test]
fn a_shared_mutex_is_lockable(rt: HostRuntime) -> Result<(), Fail> {
    assert!(rt; lockable(&rt, rt.alloc())? == (0, 1));
    Ok(())
}
