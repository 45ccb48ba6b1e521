use crate::{Row, Work, measure};
use std::alloc::Global;
use std::sync::Wait;
use std::test::Fail;
use std::thread::Threads;
use std::time::Clock;

// Of how many rounds a loop tells that is to run 8 times, if it could be run.
fn rounds<R: Threads + Wait + Clock + Copy + Send + 'static>(
    rt: &R,
    alloc: Global,
    work: Work,
    threads: u32,
) -> Option<u32> {
    let row = Row {
        work,
        often: 8,
        threads,
    };
    match measure(rt, alloc, &row, 8) {
        Ok(taken) => Some(taken.calls),
        Err(_) => None,
    }
}

#[test]
fn one_thread_makes_all_rounds(rt: HostRuntime) -> Result<(), Fail> {
    assert!(rt; rounds(&rt, rt.alloc(), Work::Turn, 1) == Some(8));
    assert!(rt; rounds(&rt, rt.alloc(), Work::Mutex, 1) == Some(8));
    assert!(rt; rounds(&rt, rt.alloc(), Work::Share, 1) == Some(8));
    assert!(rt; rounds(&rt, rt.alloc(), Work::Semaphore, 1) == Some(8));
    assert!(rt; rounds(&rt, rt.alloc(), Work::Latch, 1) == Some(8));
    assert!(rt; rounds(&rt, rt.alloc(), Work::Done, 1) == Some(8));
    assert!(rt; rounds(&rt, rt.alloc(), Work::Notify, 1) == Some(8));
    assert!(rt; rounds(&rt, rt.alloc(), Work::Get, 1) == Some(8));
    assert!(rt; rounds(&rt, rt.alloc(), Work::Set, 1) == Some(8));
    Ok(())
}

#[test]
fn threads_share_the_rounds(rt: HostRuntime) -> Result<(), Fail> {
    assert!(rt; rounds(&rt, rt.alloc(), Work::Race, 2) == Some(8));
    assert!(rt; rounds(&rt, rt.alloc(), Work::Race, 3) == Some(6));
    assert!(rt; rounds(&rt, rt.alloc(), Work::Share, 4) == Some(8));
    assert!(rt; rounds(&rt, rt.alloc(), Work::Phase, 4) == Some(8));
    assert!(rt; rounds(&rt, rt.alloc(), Work::PingPong, 2) == Some(8));
    assert!(rt; rounds(&rt, rt.alloc(), Work::Sleep, 2) == Some(1));
    assert!(rt; rounds(&rt, rt.alloc(), Work::HandOver, 2) == Some(8));
    Ok(())
}
