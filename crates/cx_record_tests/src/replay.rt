use cx_history::{List, Record};
use cx_items::Item;
use cx_names::NoMemory;
use cx_replay::{Replayed, replay, replay_plan};
use cx_scenario::read;
use std::alloc::Global;

/// Two threads take a semaphore's two units.
const TWO_UNITS: &[u8] =
    b"cxthread 1\nthread a\nthread b\nsemaphore q 0 2\nmutex m 0\nbody a\nacquire q\nlock m\nunlock m\nend\nbody b\nacquire q\nlock m\nunlock m\nend\nmain\nstart a\nstart b\nrelease q 2\njoin a\njoin b\nend\n";

/// Main waits for a unit that nobody gives.
const NO_UNIT: &[u8] = b"cxthread 1\nsemaphore q 0 1\nmain\nacquire q\nend\n";

/// What this text replays to; a text with a fault fails the test.
fn replayed(alloc: Global, text: &[u8], seed: Option<u64>) -> Result<Replayed, NoMemory> {
    match read(alloc, text) {
        Ok(scenario) => replay(alloc, &scenario, seed),
        Err(_) => Err(NoMemory),
    }
}

/// The same by the plan alone.
fn plan_replayed(alloc: Global, text: &[u8], seed: Option<u64>) -> Result<Replayed, NoMemory> {
    match read(alloc, text) {
        Ok(scenario) => replay_plan(alloc, scenario.plan(), seed),
        Err(_) => Err(NoMemory),
    }
}

/// The position of the list's first item, where that is a change.
fn first_position(list: &List) -> Option<u32> {
    match list.items.items.as_slice().first() {
        Some(Item::Change(_, position, _)) => Some(*position),
        _ => None,
    }
}

/// Whether the first changes of threads 1 and 2 have these positions.
fn began_at(record: &Record, a: u32, b: u32) -> bool {
    match record.lists.as_slice() {
        [_, first, second] => first_position(first) == Some(a) && first_position(second) == Some(b),
        _ => false,
    }
}

/// Whether a replay has ended, and the first changes of threads 1 and 2 have these positions.
fn ended_so(replayed: &Replayed, a: u32, b: u32) -> bool {
    match replayed {
        Replayed::Ended(record) => began_at(record, a, b),
        Replayed::Stuck(_, _) => false,
    }
}

/// How many threads are live where a replay is stuck.
fn live_threads(replayed: &Replayed) -> usize {
    match replayed {
        Replayed::Ended(_) => 0,
        Replayed::Stuck(_, live) => live.threads.len(),
    }
}

#[test]
fn the_lowest_thread_goes_first(rt: HostRuntime) -> Result<(), NoMemory> {
    let outcome = replayed(rt.alloc(), TWO_UNITS, None)?;
    assert!(rt; ended_so(&outcome, 1, 2));
    Ok(())
}

#[test]
fn a_seed_draws_the_other(rt: HostRuntime) -> Result<(), NoMemory> {
    let outcome = replayed(rt.alloc(), TWO_UNITS, Some(0))?;
    assert!(rt; ended_so(&outcome, 2, 1));
    Ok(())
}

#[test]
fn a_plan_is_replayed(rt: HostRuntime) -> Result<(), NoMemory> {
    let outcome = plan_replayed(rt.alloc(), TWO_UNITS, None)?;
    assert!(rt; ended_so(&outcome, 1, 2));
    let outcome = plan_replayed(rt.alloc(), TWO_UNITS, Some(0))?;
    assert!(rt; ended_so(&outcome, 2, 1));
    Ok(())
}

#[test]
fn main_alone_is_stuck(rt: HostRuntime) -> Result<(), NoMemory> {
    let outcome = replayed(rt.alloc(), NO_UNIT, None)?;
    assert!(rt; live_threads(&outcome) == 1);
    Ok(())
}
