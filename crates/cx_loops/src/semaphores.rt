//! Releases and acquisitions of semaphores, by one thread and by two.
ghost use Rattle.std.specs.Prelude.{◌≡◌, ◌+◌, ◌≤◌};
ghost use Rattle.std.specs.Arc.{arc_value};
ghost use Rattle.cx_sync.specs.Sync.{IsSemaphorePass};
ghost use Rattle.cx_loops.specs.Starts.{MayPlay, MayStart};

use crate::taken::{Taken, Want, begin, made_since};
use cx_sync::{Latch, LatchPass, Semaphore, SemaphorePass};
use std::alloc::Global;
use std::sync::{Arc, Wait};
use std::thread;
use std::thread::{JoinHandle, Threads};
use std::time::{Clock, Duration};

/// Releases one and acquires it, `n` times. Returns how often: fewer than `n` times only where a
/// release was refused.
pub fn release_often<R: Wait>(
    rt: &R,
    semaphore: &Semaphore,
    pass: &mut SemaphorePass,
    n: u32,
) -> u32
    requires pass { IsSemaphorePass semaphore.now pass.old }
    requires left { n + n ≤ pass.old.left }
    ensures idle { IsSemaphorePass semaphore.now pass.new }
    ensures within { result ≤ n }
    ensures made { pass.new.left + (result + result) ≡ pass.old.left }
{
    for i in 0..n {
        let Ok(_) = semaphore.release(rt, pass, 1) else {
            return i;
        };
        semaphore.acquire(rt, pass);
    }
    n
}

/// One thread releases and acquires `n` times.
pub fn alone<R: Wait + Clock>(rt: &R, alloc: Global, n: u32) -> Result<Taken, Want>
    requires { n ≤ 100000000 }
{
    let (semaphore, mut pass) = Semaphore::new(alloc, 0, 65_535, 1, 2 * n)?;
    let start = begin(rt)?;
    let made = release_often(rt, &semaphore, &mut pass, n);
    made_since(rt, start, made)
}

/// Releases one of `out` and acquires one of `back`, `n` times. Returns how often: fewer than `n` times
/// only where a release was refused.
pub fn rally<R: Wait>(
    rt: &R,
    out: &Semaphore,
    out_pass: &mut SemaphorePass,
    back: &Semaphore,
    back_pass: &mut SemaphorePass,
    n: u32,
) -> u32
    requires out { MayPlay out.now out_pass.old n }
    requires back { MayPlay back.now back_pass.old n }
    ensures idle { IsSemaphorePass out.now out_pass.new × IsSemaphorePass back.now back_pass.new }
    ensures within { result ≤ n }
    ensures released { out_pass.new.left + result ≡ out_pass.old.left }
    ensures acquired { back_pass.new.left + result ≡ back_pass.old.left }
{
    for i in 0..n {
        let Ok(_) = out.release(rt, out_pass, 1) else {
            return i;
        };
        back.acquire(rt, back_pass);
    }
    n
}

// The two semaphores that two threads play with, and a thread's passes of them.
#[derive(Drop)]
struct Side {
    out: Arc<Semaphore, Global>,
    out_pass: SemaphorePass,
    back: Arc<Semaphore, Global>,
    back_pass: SemaphorePass,
}

// A thread that waits at the gate, acquires one, plays, and releases the last one.
fn second<R: Threads + Wait + Copy + Send + 'static>(
    rt: &R,
    side: Side,
    gate: Arc<Latch, Global>,
    ticket: LatchPass,
    n: u32,
) -> Result<JoinHandle<u32>, Want>
    requires { MayPlay (arc_value side.out) side.out_pass (n + 1) × MayPlay (arc_value side.back) side.back_pass (n + 1) × MayStart (arc_value gate) ticket }
{
    let inner = *rt;
    thread::spawn(
        rt,
        move || -> u32
            requires { MayPlay (arc_value side.out) side.out_pass (n + 1) × MayPlay (arc_value side.back) side.back_pass (n + 1) × MayStart (arc_value gate) ticket }
        {
            let Side {
                out,
                mut out_pass,
                back,
                mut back_pass,
            } = side;
            let mut start = ticket;
            gate.arrive_and_wait(&inner, &mut start);
            back.acquire(&inner, &mut back_pass);
            let played = rally(&inner, &out, &mut out_pass, &back, &mut back_pass, n);
            let _last = out.release(&inner, &mut out_pass, 1);
            played
        },
    )
    .map_err(|_| Want)
}

/// Two threads hand one another a release, `n` times there and back.
pub fn ping_pong<R: Threads + Wait + Clock + Copy + Send + 'static>(
    rt: &R,
    alloc: Global,
    n: u32,
) -> Result<Taken, Want>
    requires { (1 ≤ n) × (n ≤ 100000000) }
{
    let (there, mut release_pass) = Semaphore::new(alloc, 0, 65_535, 2, 2 * n)?;
    let (back, mut acquire_pass) = Semaphore::new(alloc, 0, 65_535, 2, 2 * n)?;
    let (gate, mut ticket) = Latch::new(alloc, 2, 2, 2)?;
    let acquires = there.split(&mut release_pass, n);
    let releases = back.split(&mut acquire_pass, n);
    let mut theirs = gate.split(&mut ticket, 1);
    gate.give(&mut ticket, &mut theirs, 1);
    let there = Arc::new(alloc, there)?;
    let back = Arc::new(alloc, back)?;
    let gate = Arc::new(alloc, gate)?;
    let its_out = Arc::try_clone(&back)?;
    let its_back = Arc::try_clone(&there)?;
    let side = Side {
        out: its_out,
        out_pass: releases,
        back: its_back,
        back_pass: acquires,
    };
    let its_gate = Arc::try_clone(&gate)?;
    let second = second(rt, side, its_gate, theirs, n - 1)?;
    let start = begin(rt)?;
    gate.arrive_and_wait(rt, &mut ticket);
    let made = rally(rt, &there, &mut release_pass, &back, &mut acquire_pass, n);
    second.join(rt);
    made_since(rt, start, made)
}

// A thread that releases one after so many milliseconds.
fn late<R: Threads + Wait + Clock + Copy + Send + 'static>(
    rt: &R,
    semaphore: Arc<Semaphore, Global>,
    pass: SemaphorePass,
    milliseconds: u32,
) -> Result<JoinHandle<bool>, Want>
    requires { MayPlay (arc_value semaphore) pass 1 }
{
    let inner = *rt;
    thread::spawn(
        rt,
        move || -> bool
            requires { MayPlay (arc_value semaphore) pass 1 }
        {
            let mut mine = pass;
            thread::sleep(&inner, Duration::from_millis(milliseconds as u64));
            semaphore.release(&inner, &mut mine, 1).is_ok()
        },
    )
    .map_err(|_| Want)
}

/// One thread waits for a release that comes after so many milliseconds.
pub fn sleep<R: Threads + Wait + Clock + Copy + Send + 'static>(
    rt: &R,
    alloc: Global,
    milliseconds: u32,
) -> Result<Taken, Want> {
    let (semaphore, mut first) = Semaphore::new(alloc, 0, 1, 2, 2)?;
    let pass = semaphore.split(&mut first, 1);
    let semaphore = Arc::new(alloc, semaphore)?;
    let theirs = Arc::try_clone(&semaphore)?;
    let start = begin(rt)?;
    let late = late(rt, theirs, pass, milliseconds)?;
    semaphore.acquire(rt, &mut first);
    let taken = made_since(rt, start, 1);
    late.join(rt);
    taken
}
