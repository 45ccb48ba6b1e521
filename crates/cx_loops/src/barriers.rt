//! Phases of a barrier.
ghost use Rattle.std.specs.Prelude.{◌≡◌, ◌+◌, ◌≤◌};
ghost use Rattle.std.specs.Arc.{arc_value};
ghost use Rattle.cx_barrier.specs.Barriers.{IsBarrierPass};
ghost use Rattle.cx_loops.specs.Meetings.{MayMeet};

use crate::taken::{Taken, Want, begin, made_since};
use cx_barrier::{Barrier, BarrierPass, Completion};
use cx_names::ThreadNo;
use std::alloc::Global;
use std::sync::{Arc, Wait};
use std::thread;
use std::thread::{JoinHandle, Threads};
use std::time::Clock;

/// How many phases a run has at most.
pub const MOST_PHASES: u32 = 2_000_000;

// How many changes there may be in all: two for each of 64 threads and each phase.
const CHANGES: u32 = 256_000_000;

// Counts the phases that its thread completed.
#[derive(Drop)]
struct Tally {
    count: u64,
}

impl Completion for Tally {
    ghost runs = { λ t. t.count };

    ghost since = { λ _ _. Unit {0} };

    fn complete<R: Wait>(&mut self, _rt: &R, _by: ThreadNo) {
        self.count = self.count.saturating_add(1);
    }

    ghost since_itself = { λ _. tt };

    ghost since_all = { λ _ _ _ _ _. tt };
}

/// Arrives and waits, `n` times. Returns how often: fewer than `n` times only where an arrival was refused.
pub fn meet_often<R: Wait>(rt: &R, barrier: &Barrier, pass: &mut BarrierPass, n: u32) -> u32
    requires pass { IsBarrierPass barrier.now pass.old }
    requires left { n + n ≤ pass.old.pass.left }
    ensures idle { IsBarrierPass barrier.now pass.new }
    ensures within { result ≤ n }
    ensures made { pass.new.pass.left + result ≤ pass.old.pass.left }
    ensures left { pass.old.pass.left ≤ pass.new.pass.left + (result + result) }
{
    let mut tally = Tally { count: 0 };
    for i in 0..n {
        let Ok(_) = barrier.arrive_and_wait(rt, pass, &mut tally) else {
            return i;
        };
    }
    n
}

// A thread that arrives and waits so often.
fn phaser<R: Threads + Wait + Copy + Send + 'static>(
    rt: &R,
    barrier: Arc<Barrier, Global>,
    pass: BarrierPass,
    often: u32,
) -> Result<JoinHandle<u32>, Want>
    requires { MayMeet (arc_value barrier) pass often }
{
    let inner = *rt;
    thread::spawn(
        rt,
        move || -> u32
            requires { MayMeet (arc_value barrier) pass often }
        {
            let mut mine = pass;
            meet_often(&inner, &barrier, &mut mine, often)
        },
    )
    .map_err(|_| Want)
}

/// So many threads go through `n` phases of one barrier. The others wait in the first phase until this one,
/// which takes the time, arrives.
pub fn phases<R: Threads + Wait + Clock + Copy + Send + 'static>(
    rt: &R,
    alloc: Global,
    threads: u32,
    n: u32,
) -> Result<Taken, Want>
    requires rounds { n ≤ 2000000 }
    requires threads { (1 ≤ threads) × (threads ≤ 64) }
{
    let (barrier, mut first) = Barrier::new(alloc, threads, threads, CHANGES)?;
    let barrier = Arc::new(alloc, barrier)?;
    let mut phasers = Vec::with_capacity(alloc, threads as usize)?;
    for started in 1..threads {
        if first.left() < 2 * n {
            return Err(Want);
        }
        let pass = barrier.split(&mut first, 2 * n);
        let theirs = Arc::try_clone(&barrier)?;
        let phaser = phaser(rt, theirs, pass, n)?;
        phasers.push(phaser)?;
    }
    if first.left() < 2 * n {
        return Err(Want);
    }
    let start = begin(rt)?;
    let made = meet_often(rt, &barrier, &mut first, n);
    for _ in 0..phasers.len() {
        if let Some(phaser) = phasers.pop() {
            phaser.join(rt);
        }
    }
    made_since(rt, start, made)
}
