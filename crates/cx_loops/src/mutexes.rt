//! Locks and unlocks of a mutex, by one thread and by several.
ghost use Rattle.std.specs.Prelude.{◌≡◌, ◌+◌, ◌≤◌};
ghost use Rattle.std.specs.Arc.{arc_value};
ghost use Rattle.cx_mutex.specs.Mutexes.{IsMutexPass, IsBare};
ghost use Rattle.cx_loops.specs.Starts.{MayRace, MayStart};

use crate::taken::{Taken, Want, begin, made_since};
use cx_mutex::{Mutex, MutexPass};
use cx_sync::{Latch, LatchPass};
use std::alloc::Global;
use std::sync::{Arc, Wait};
use std::thread;
use std::thread::{JoinHandle, Threads};
use std::time::Clock;

/// Locks the mutex and unlocks it, `n` times.
pub fn lock_often<R: Wait>(rt: &R, mutex: &Mutex, pass: &mut MutexPass, n: u32)
    requires pass { IsMutexPass mutex.now pass.old }
    requires bare { IsBare mutex.now pass.old }
    requires left { n + n ≤ pass.old.left }
    ensures idle { IsMutexPass mutex.now pass.new }
    ensures bare { IsBare mutex.now pass.new }
    ensures made { pass.new.left + (n + n) ≡ pass.old.left }
{
    for done in 0..n {
        let (hold, _) = mutex.lock(rt, pass);
        mutex.unlock(rt, pass, hold);
    }
}

/// One thread locks and unlocks a mutex `n` times, which nobody else asks for.
pub fn alone<R: Wait + Clock>(rt: &R, alloc: Global, n: u32) -> Result<Taken, Want>
    requires { n ≤ 100000000 }
{
    let (mutex, mut pass) = Mutex::new(alloc, 0, 1, 2 * n)?;
    let start = begin(rt)?;
    lock_often(rt, &mutex, &mut pass, n);
    made_since(rt, start, n)
}

// A thread that waits at the gate, and then locks and unlocks so often.
fn racer<R: Threads + Wait + Copy + Send + 'static>(
    rt: &R,
    mutex: Arc<Mutex, Global>,
    pass: MutexPass,
    gate: Arc<Latch, Global>,
    ticket: LatchPass,
    often: u32,
) -> Result<JoinHandle<u32>, Want>
    requires { MayRace (arc_value mutex) pass often × MayStart (arc_value gate) ticket }
{
    let inner = *rt;
    thread::spawn(
        rt,
        move || -> u32
            requires { MayRace (arc_value mutex) pass often × MayStart (arc_value gate) ticket }
        {
            let mut mine = pass;
            let mut start = ticket;
            gate.arrive_and_wait(&inner, &mut start);
            lock_often(&inner, &mutex, &mut mine, often);
            often
        },
    )
    .map_err(|_| Want)
}

/// So many threads lock and unlock one mutex, `n` times in all.
pub fn together<R: Threads + Wait + Clock + Copy + Send + 'static>(
    rt: &R,
    alloc: Global,
    threads: u32,
    n: u32,
) -> Result<Taken, Want>
    requires rounds { n ≤ 100000000 }
    requires threads { (1 ≤ threads) × (threads ≤ 64) }
{
    let each = n / threads;
    let (mutex, mut first) = Mutex::new(alloc, 0, threads, 2 * n)?;
    let (gate, mut ticket) = Latch::new(alloc, threads, threads, threads)?;
    let mutex = Arc::new(alloc, mutex)?;
    let gate = Arc::new(alloc, gate)?;
    let mut racers = Vec::with_capacity(alloc, threads as usize)?;
    for started in 1..threads {
        if first.left() < 2 * each {
            return Err(Want);
        }
        let pass = mutex.split(&mut first, 2 * each);
        let mut theirs = gate.split(&mut ticket, 1);
        gate.give(&mut ticket, &mut theirs, 1);
        let its_mutex = Arc::try_clone(&mutex)?;
        let its_gate = Arc::try_clone(&gate)?;
        let racer = racer(rt, its_mutex, pass, its_gate, theirs, each)?;
        racers.push(racer)?;
    }
    if first.left() < 2 * each {
        return Err(Want);
    }
    let start = begin(rt)?;
    gate.arrive_and_wait(rt, &mut ticket);
    lock_often(rt, &mutex, &mut first, each);
    for _ in 0..racers.len() {
        if let Some(racer) = racers.pop() {
            racer.join(rt);
        }
    }
    made_since(rt, start, n.saturating_sub(n % threads))
}
