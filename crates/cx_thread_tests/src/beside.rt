//! A job that was started runs while its starter goes on.

use cx_io::{Job, Listed, Real, Spawner, Sure};
use std::alloc::Global;
use std::sync::atomic::{AtomicBool, Ordering};
use std::sync::{Arc, Wait};
use std::test::Fail;
use std::thread::Threads;

/// How often one looks for the other, until it gives up.
const TURNS: u32 = 200_000_000;

/// Where a job and its starter show themselves to each other.
#[derive(Drop)]
struct Meeting {
    job: AtomicBool,
    starter: AtomicBool,
}

/// Shows itself, and looks for the other; whether that one came.
fn meets(own: &AtomicBool, other: &AtomicBool) -> bool {
    own.store(true, Ordering::SeqCst);
    for _ in 0..TURNS {
        if other.load(Ordering::SeqCst) {
            return true;
        }
    }
    false
}

/// Meets its starter.
#[derive(Drop)]
struct Guest(Arc<Meeting, Global>);

impl Job for Guest {
    type Out = bool;

    ghost gives = { λ _ _. Unit {0} };

    ghost steps_of = { λ _. 0 };

    fn run<R: Wait>(self, _rt: &R) -> bool {
        meets(&self.0.job, &self.0.starter)
    }

    fn steps(_out: &bool) -> u64 {
        0
    }
}

/// Whether a job that this spawner starts meets its starter before it is joined. One that ran within its start, or
/// only at its join, would not.
fn runs_beside<P: Spawner<Guest>, R: Threads + Wait + Copy + Send + 'static>(
    rt: &R,
    alloc: Global,
    spawner: &mut P,
) -> Result<bool, Fail> {
    let meeting = Meeting {
        job: AtomicBool::new(false),
        starter: AtomicBool::new(false),
    };
    let mine = Arc::new(alloc, meeting)?;
    let theirs = Arc::try_clone(&mine)?;
    match spawner.start(rt, Guest(theirs)) {
        Err(_) => Ok(false),
        Ok(running) => {
            let came = meets(&mine.starter, &mine.job);
            let saw = spawner.join(rt, running);
            Ok(came && saw)
        }
    }
}

#[test]
fn a_job_runs_while_its_starter_goes_on(rt: HostRuntime) -> Result<(), Fail> {
    let alloc = rt.alloc();
    assert!(rt; runs_beside(&rt, alloc, &mut Real::new(alloc))?);
    assert!(rt; runs_beside(&rt, alloc, &mut Sure::new(alloc))?);
    assert!(rt; runs_beside(&rt, alloc, &mut Listed::new(alloc, Vec::new(alloc)))?);
    Ok(())
}
