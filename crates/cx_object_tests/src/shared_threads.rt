ghost use Rattle.std.specs.Prelude.{◌≡◌, ◌≤◌, ◌<◌, ◌+◌, ℕ};
ghost use Rattle.std.specs.Arc.{arc_value};
ghost use Rattle.cx_machine.specs.Shared as machine;
ghost use Rattle.cx_turn.specs.declared.view.View.{View};
ghost use Rattle.cx_shared_mutex.specs.SharedMutexes.{IsSharedPass, IsSharedPassWith, IsBare, shared_seats};

use cx_names::NoMemory;
use cx_shared_mutex::{SharedMutex, SharedPass};
use std::alloc::Global;
use std::sync::{Arc, Wait};
use std::test::Fail;
use std::thread;
use std::thread::{JoinHandle, Threads};

const WORKERS: u32 = 8;

// Shares the mutex, leaves it, locks it and unlocks it. Gives the positions of the last two.
fn reads_and_writes<R: Wait>(rt: &R, mutex: &SharedMutex, pass: &mut SharedPass) -> (u32, u32)
    requires pass { IsSharedPass mutex.now pass.old }
    requires bare { IsBare mutex.now pass.old }
    requires left { 4 ≤ pass.old.left }
{
    let (shared, _) = mutex.lock_shared(rt, pass);
    mutex.unlock_shared(rt, pass, shared);
    let (hold, locked) = mutex.lock(rt, pass);
    let unlocked = mutex.unlock(rt, pass, hold);
    (locked, unlocked)
}

// A thread that does so.
fn worker<R: Threads + Wait + Copy + Send + 'static>(
    rt: &R,
    mutex: Arc<SharedMutex, Global>,
    pass: SharedPass,
) -> Option<JoinHandle<(u32, u32)>>
    requires { IsSharedPass (arc_value mutex) pass × IsBare (arc_value mutex) pass × (4 ≤ pass.left) }
{
    let inner = *rt;
    thread::spawn(
        rt,
        move || -> (u32, u32)
            requires { IsSharedPass (arc_value mutex) pass × IsBare (arc_value mutex) pass × (4 ≤ pass.left) }
        {
            let mut mine = pass;
            reads_and_writes(&inner, &mutex, &mut mine)
        },
    )
    .ok()
}

// Eight threads do so on one mutex. Gives how many there were, and whether nothing was done by another
// between each one's lock and unlock.
fn eight_work<R: Threads + Wait + Copy + Send + 'static>(
    rt: &R,
    alloc: Global,
) -> Result<(usize, bool), NoMemory> {
    let (mutex, mut first) = SharedMutex::new(alloc, WORKERS + 1, 100)?;
    let mutex = Arc::new(alloc, mutex)?;
    let mut workers = Vec::with_capacity(alloc, WORKERS as usize)?;
    for started in 0..WORKERS {
        let pass = mutex.split(&mut first, 4);
        let theirs = Arc::try_clone(&mutex)?;
        if let Some(worker) = worker(rt, theirs, pass) {
            workers.push(worker)?;
        }
    }
    let count = workers.len();
    let mut is_alone = true;
    for _ in 0..count {
        if let Some(worker) = workers.pop() {
            let (locked, unlocked) = worker.join(rt);
            is_alone = is_alone && unlocked.checked_sub(locked) == Some(1);
        }
    }
    Ok((count, is_alone))
}

#[test]
fn eight_threads_read_and_write(rt: HostRuntime) -> Result<(), Fail> {
    for _ in 0..100 {
        assert!(rt; eight_work(&rt, rt.alloc())? == (WORKERS as usize, true));
    }
    Ok(())
}
