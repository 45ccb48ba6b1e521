//! Shared locks and unlocks of a shared mutex, by one thread and by several.
ghost use Rattle.std.specs.Prelude.{◌≡◌, ◌+◌, ◌≤◌};
ghost use Rattle.std.specs.Arc.{arc_value};
ghost use Rattle.cx_shared_mutex.specs.SharedMutexes.{IsSharedPass, IsBare};
ghost use Rattle.cx_loops.specs.Starts.{MayStart};
ghost use Rattle.cx_loops.specs.SharedStarts.{MayShare};

use crate::taken::{Taken, Want, begin, made_since};
use cx_shared_mutex::{SharedMutex, SharedPass};
use cx_sync::{Latch, LatchPass};
use std::alloc::Global;
use std::sync::{Arc, Wait};
use std::thread;
use std::thread::{JoinHandle, Threads};
use std::time::Clock;

/// Shares the mutex and leaves it, `n` times.
pub fn share_often<R: Wait>(rt: &R, mutex: &SharedMutex, pass: &mut SharedPass, n: u32)
    requires pass { IsSharedPass mutex.now pass.old }
    requires bare { IsBare mutex.now pass.old }
    requires left { n + n ≤ pass.old.left }
    ensures idle { IsSharedPass mutex.now pass.new }
    ensures bare { IsBare mutex.now pass.new }
    ensures made { pass.new.left + (n + n) ≡ pass.old.left }
{
    for done in 0..n {
        let (shared, _) = mutex.lock_shared(rt, pass);
        mutex.unlock_shared(rt, pass, shared);
    }
}

// One thread shares a mutex and leaves it `n` times, which nobody else asks for.
fn alone<R: Wait + Clock>(rt: &R, alloc: Global, n: u32) -> Result<Taken, Want>
    requires { n ≤ 100000000 }
{
    let (mutex, mut pass) = SharedMutex::new(alloc, 1, 2 * n)?;
    let start = begin(rt)?;
    share_often(rt, &mutex, &mut pass, n);
    made_since(rt, start, n)
}

// A thread that waits at the gate, and then shares the mutex and leaves it so often.
fn reader<R: Threads + Wait + Copy + Send + 'static>(
    rt: &R,
    mutex: Arc<SharedMutex, Global>,
    pass: SharedPass,
    gate: Arc<Latch, Global>,
    ticket: LatchPass,
    often: u32,
) -> Result<JoinHandle<u32>, Want>
    requires { MayShare (arc_value mutex) pass often × MayStart (arc_value gate) ticket }
{
    let inner = *rt;
    thread::spawn(
        rt,
        move || -> u32
            requires { MayShare (arc_value mutex) pass often × MayStart (arc_value gate) ticket }
        {
            let mut mine = pass;
            let mut start = ticket;
            gate.arrive_and_wait(&inner, &mut start);
            share_often(&inner, &mutex, &mut mine, often);
            often
        },
    )
    .map_err(|_| Want)
}

// So many threads share one mutex and leave it, `n` times in all.
fn together<R: Threads + Wait + Clock + Copy + Send + 'static>(
    rt: &R,
    alloc: Global,
    threads: u32,
    n: u32,
) -> Result<Taken, Want>
    requires rounds { n ≤ 100000000 }
    requires threads { (1 ≤ threads) × (threads ≤ 64) }
{
    let each = n / threads;
    let (mutex, mut first) = SharedMutex::new(alloc, threads, 2 * n)?;
    let (gate, mut ticket) = Latch::new(alloc, threads, threads, threads)?;
    let mutex = Arc::new(alloc, mutex)?;
    let gate = Arc::new(alloc, gate)?;
    let mut readers = Vec::with_capacity(alloc, threads as usize)?;
    for started in 1..threads {
        if first.left() < 2 * each {
            return Err(Want);
        }
        let pass = mutex.split(&mut first, 2 * each);
        let mut theirs = gate.split(&mut ticket, 1);
        gate.give(&mut ticket, &mut theirs, 1);
        let its_mutex = Arc::try_clone(&mutex)?;
        let its_gate = Arc::try_clone(&gate)?;
        let reader = reader(rt, its_mutex, pass, its_gate, theirs, each)?;
        readers.push(reader)?;
    }
    if first.left() < 2 * each {
        return Err(Want);
    }
    let start = begin(rt)?;
    gate.arrive_and_wait(rt, &mut ticket);
    share_often(rt, &mutex, &mut first, each);
    for _ in 0..readers.len() {
        if let Some(reader) = readers.pop() {
            reader.join(rt);
        }
    }
    made_since(rt, start, n.saturating_sub(n % threads))
}

/// One thread, or so many, share one mutex and leave it, `n` times in all.
pub fn read<R: Threads + Wait + Clock + Copy + Send + 'static>(
    rt: &R,
    alloc: Global,
    threads: u32,
    n: u32,
) -> Result<Taken, Want>
    requires rounds { n ≤ 100000000 }
    requires threads { (1 ≤ threads) × (threads ≤ 64) }
{
    if threads == 1 {
        return alone(rt, alloc, n);
    }
    together(rt, alloc, threads, n)
}
