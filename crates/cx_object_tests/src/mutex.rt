ghost use Rattle.std.specs.Prelude.{◌≡◌, ◌≤◌, ◌+◌, ℕ, IfOk};
ghost use Rattle.cx_turn.specs.declared.view.View.{View};
ghost use Rattle.cx_mutex.specs.Mutexes.{IsMutexPass, IsBare};

use cx_mutex::{
    Levels, Mutex, MutexPass, RecursiveMutex, Spent, Tried, UniqueLock, lock_all, try_lock_all,
};
use cx_names::{Errc, NoMemory, TURNS, Turns};
use cx_turn::Lockable;
use std::alloc::Global;
use std::sync::Wait;
use std::test::Fail;

// A mutex with two passes of four changes each.
fn fresh(alloc: Global) -> Result<(Mutex, MutexPass, MutexPass), NoMemory>
    ensures first { IfOk result (λ t. IsMutexPass t.0 t.1 × IsBare t.0 t.1 × (4 ≤ t.1.left)) }
    ensures second { IfOk result (λ t. IsMutexPass t.0 t.2 × IsBare t.0 t.2 × (4 ≤ t.2.left)) }
{
    let (mutex, mut first) = Mutex::new(alloc, 0, 2, 8)?;
    let second = mutex.split(&mut first, 4);
    Ok((mutex, first, second))
}

fn has_locked<H>(tried: &Tried<H>) -> bool {
    match tried {
        Tried::Got(..) => true,
        Tried::Not(_) => false,
    }
}

// One pass locks, the other tries, the first unlocks, and the other tries again.
fn plain<R: Wait>(rt: &R, alloc: Global) -> Result<(u32, Option<u32>, u32, bool), NoMemory> {
    let (mutex, mut first, mut second) = fresh(alloc)?;
    let (hold, locked) = mutex.lock(rt, &mut first);
    match mutex.try_lock(rt, &mut second) {
        Tried::Got(..) => Ok((locked, None, 0, false)),
        Tried::Not(missed) => {
            let unlocked = mutex.unlock(rt, &mut first, hold);
            let again = mutex.try_lock(rt, &mut second);
            Ok((locked, Some(missed), unlocked, has_locked(&again)))
        }
    }
}

// Locks twice and unlocks the inner level.
fn recursive<R: Wait>(rt: &R, alloc: Global) -> Result<Option<(u32, u32, u32)>, NoMemory> {
    let (mutex, mut pass) = RecursiveMutex::new(alloc, 1, 4)?;
    let Ok((_, outer)) = mutex.lock(rt, &mut pass) else {
        return Ok(None);
    };
    let Tried::Got(level, inner) = mutex.try_lock(rt, &mut pass) else {
        return Ok(None);
    };
    let given = mutex.unlock(rt, &mut pass, level);
    Ok(Some((outer, inner, given)))
}

// Locks once, and puts the level among those of its thread and takes it out. Gives how many there
// were, and the position of the unlock.
fn kept_levels<R: Wait>(rt: &R, alloc: Global) -> Result<Option<(u32, u32)>, NoMemory> {
    let (mutex, mut pass) = RecursiveMutex::new(alloc, 1, 4)?;
    let Ok((level, _)) = mutex.lock(rt, &mut pass) else {
        return Ok(None);
    };
    let mut levels = Levels::none(pass.number());
    levels.put(level);
    let count = levels.count();
    let Some(level) = levels.take() else {
        return Ok(None);
    };
    let given = mutex.unlock(rt, &mut pass, level);
    Ok(Some((count, given)))
}

// What a lock with no mutex answers to `lock`.
fn unique_of_none<R: Wait>(rt: &R, alloc: Global) -> Result<Result<u32, Errc>, NoMemory> {
    let (_mutex, mut pass, _) = fresh(alloc)?;
    let mut lock = UniqueLock {
        mutex: None,
        held: None,
    };
    let answer = lock.lock(rt, &mut pass);
    let UniqueLock { mutex: _, held: _ } = lock;
    Ok(answer)
}

// What a lock answers that is locked twice.
fn unique<R: Wait>(
    rt: &R,
    alloc: Global,
) -> Result<(Result<u32, Errc>, Result<u32, Errc>), NoMemory> {
    let (mutex, mut pass, _) = fresh(alloc)?;
    let mut lock = UniqueLock {
        mutex: Some(&mutex),
        held: None,
    };
    let first = lock.lock(rt, &mut pass);
    let second = match first {
        Ok(_) => lock.lock(rt, &mut pass),
        Err(_) => first,
    };
    let UniqueLock { mutex: _, held: _ } = lock;
    Ok((first, second))
}

// Takes a lock and gives it up.
fn once<L: Lockable, R: Wait>(lock: &L, rt: &R, key: &mut L::Key) -> (u32, u32)
    requires key { (v : View L.M) × L.knows lock.now key.old v }
    requires bare { L.is_bare lock.now key.old }
    requires left { 2 ≤ L.left key.old }
{
    let (hold, taken) = lock.acquire(rt, key);
    let given = lock.release(rt, key, hold);
    (taken, given)
}

fn lockable<R: Wait>(rt: &R, alloc: Global) -> Result<(u32, u32), NoMemory> {
    let (mutex, mut pass, _) = fresh(alloc)?;
    Ok(once(&mutex, rt, &mut pass))
}

// Tries two mutexes while another pass holds the second, and then the first by another pass.
fn tries_two<R: Wait>(rt: &R, alloc: Global) -> Result<(Option<usize>, bool), NoMemory> {
    let (one, of_one, mut spare) = fresh(alloc)?;
    let (two, of_two, mut other) = fresh(alloc)?;
    let (_hold, _) = two.lock(rt, &mut other);
    let all = [one, two];
    let mut passes = [of_one, of_two];
    let owned = try_lock_all(rt, &all, &[0, 1], &mut passes).err();
    let free = all[0].try_lock(rt, &mut spare);
    Ok((owned, has_locked(&free)))
}

// Locks two mutexes, and then tries the first by another pass.
fn locks_two<R: Wait>(rt: &R, alloc: Global) -> Result<(bool, bool), NoMemory> {
    let (one, of_one, mut spare) = fresh(alloc)?;
    let (two, of_two, _) = fresh(alloc)?;
    let all = [one, two];
    let mut passes = [of_one, of_two];
    let mut turns = Turns { used: TURNS };
    let locked = match lock_all(rt, &all, &[0, 1], &mut passes, &mut turns) {
        Ok(holds) => holds.a.is_some() && holds.b.is_some() && holds.c.is_none(),
        Err(_) => false,
    };
    let free = all[0].try_lock(rt, &mut spare);
    Ok((locked, has_locked(&free)))
}

// Locks two mutexes with no turn left, while another pass holds the second, and then the first by another
// pass.
fn spends<R: Wait>(rt: &R, alloc: Global) -> Result<(bool, bool), NoMemory> {
    let (one, of_one, mut spare) = fresh(alloc)?;
    let (two, of_two, mut other) = fresh(alloc)?;
    let (_hold, _) = two.lock(rt, &mut other);
    let all = [one, two];
    let mut passes = [of_one, of_two];
    let mut turns = Turns { used: TURNS };
    let spent = lock_all(rt, &all, &[0, 1], &mut passes, &mut turns).err();
    let free = all[0].try_lock(rt, &mut spare);
    Ok((spent == Some(Spent), has_locked(&free)))
}

#[test]
fn locks_tries_and_unlocks(rt: HostRuntime) -> Result<(), Fail> {
    let (locked, missed, unlocked, again) = plain(&rt, rt.alloc())?;
    assert!(rt; locked == 0);
    assert!(rt; missed == Some(1));
    assert!(rt; unlocked == 1);
    assert!(rt; again);
    Ok(())
}

#[test]
fn has_levels(rt: HostRuntime) -> Result<(), Fail> {
    let levels = recursive(&rt, rt.alloc())?;
    assert!(rt; levels == Some((0, 1, 2)));
    assert!(rt; kept_levels(&rt, rt.alloc())? == Some((1, 1)));
    Ok(())
}

#[test]
fn refuses_without_a_mutex(rt: HostRuntime) -> Result<(), Fail> {
    let none = unique_of_none(&rt, rt.alloc())?;
    let (first, second) = unique(&rt, rt.alloc())?;
    assert!(rt; none == Err(Errc::OperationNotPermitted));
    assert!(rt; first == Ok(0));
    assert!(rt; second == Err(Errc::ResourceDeadlockWouldOccur));
    Ok(())
}

#[test]
fn is_taken_and_given_up(rt: HostRuntime) -> Result<(), Fail> {
    let (taken, given) = lockable(&rt, rt.alloc())?;
    assert!(rt; taken == 0);
    assert!(rt; given == 1);
    Ok(())
}

#[test]
fn names_the_owned_mutex(rt: HostRuntime) -> Result<(), Fail> {
    let (owned, free) = tries_two(&rt, rt.alloc())?;
    assert!(rt; owned == Some(1));
    assert!(rt; free);
    Ok(())
}

#[test]
fn holds_both(rt: HostRuntime) -> Result<(), Fail> {
    let (locked, free) = locks_two(&rt, rt.alloc())?;
    assert!(rt; locked);
    assert!(rt; !free);
    Ok(())
}

#[test]
fn gives_up_without_turns(rt: HostRuntime) -> Result<(), Fail> {
    let (spent, free) = spends(&rt, rt.alloc())?;
    assert!(rt; spent);
    assert!(rt; free);
    Ok(())
}
