//! One job on a thread of its own.
ghost use Rattle.std.specs.Prelude.{◌≡◌, ℕ, [], Some, IfOk, IfErr};
ghost use Rattle.std.specs.Option.{ForSome};
ghost use mathlib.Core.List.{Mem};
ghost use Rattle.cx_io.specs.Spawning.{job_of};

use crate::handing::{Hatch, Parcel, Picked};
use crate::job::Job;
use std::alloc::{AllocError, Global};
use std::marker::Brand;
use std::snapshot::Snapshot;
use std::sync::{Arc, Wait};
use std::thread;
use std::thread::{Promise, PromisedHandle, Threads};

/// What a thread owes that does this job: an outcome that the job may give.
#[derive(Drop)]
pub struct Due<J> {
    job: Snapshot<J>,
}

impl<J: Job> Promise<J::Out> for Due<J> {
    ghost kept_by = { λ p r. J.gives p.job.value r };
}

/// A job that was started and is to be joined.
#[derive(Drop)]
pub enum Running<J: Job> {
    /// On a thread of its own.
    There(PromisedHandle<J::Out, Due<J>>),
    /// Here, to be run when it is joined.
    Here(J),
}

/// Does the job on the thread, once it comes.
fn do_the_job<J: Job, B: Picked<J>, R: Wait>(rt: &R, hatch: &Hatch<J, B>) -> J::Out
    requires needs { ForSome B.job (λ job. J.needs job) }
    ensures { ForSome B.job (λ job. J.gives job result) }
{
    hatch.take(rt).run(rt)
}

/// An empty hatch, with two handles of it.
fn new_hatch<J: Job, B: Picked<J>>(
    alloc: Global,
) -> Result<(Arc<Hatch<J, B>, Global>, Arc<Hatch<J, B>, Global>), AllocError> {
    let mine = Arc::new(alloc, Hatch::new())?;
    let theirs = Arc::try_clone(&mine)?;
    Ok((mine, theirs))
}

/// Starts a thread for the job and hands the job to it. Where no thread can be made, or there is no memory, it gives
/// the job back.
fn start_as<
    J: Job,
    B: Picked<J> + Send + Sync + 'static,
    R: Threads + Wait + Copy + Send + 'static,
>(rt: &R, alloc: Global, job: J) -> Result<PromisedHandle<J::Out, Due<J>>, J>
    requires picked { B.job ≡ Some job }
    requires needs { J.needs job }
    ensures told { IfOk result (λ handle. handle.promise.job.value ≡ job) }
    ensures given_back { IfErr result (λ back. back ≡ job) }
{
    let (mine, theirs) = match new_hatch::<J, B>(alloc) {
        Ok(hatches) => hatches,
        Err(_) => return Err(job),
    };
    let due = Due {
        job: Snapshot::of(&job),
    };
    let inner = *rt;
    // A job and its outcome hold no borrow, which the thread has to be told.
    let started = thread::spawn_with(
        rt,
        due,
        move || -> J::Out
            requires job { (a : ℕ) → Mem a J.row.lives → Mem a [] }
            requires out { (a : ℕ) → Mem a J.Out.row.lives → Mem a [] }
            requires needs { ForSome B.job (λ job. J.needs job) }
            ensures { ForSome B.job (λ job. J.gives job result) }
        { do_the_job::<J, B, R>(&inner, &theirs) },
    );
    match started {
        Ok(handle) => {
            mine.put(rt, Parcel::new(job));
            Ok(handle)
        }
        Err(_) => Err(job),
    }
}

/// Starts the job on a thread of its own, or gives it back.
pub fn try_start<J: Job, R: Threads + Wait + Copy + Send + 'static>(
    rt: &R,
    alloc: Global,
    job: J,
) -> Result<PromisedHandle<J::Out, Due<J>>, J>
    requires needs { J.needs job }
    ensures told { IfOk result (λ handle. handle.promise.job.value ≡ job) }
    ensures given_back { IfErr result (λ back. back ≡ job) }
{
    start_as::<J, Brand, R>(rt, alloc, job)
}

/// Waits until the job has ended, or runs it here if it has no thread.
pub fn end<J: Job, R: Threads + Wait>(rt: &R, running: Running<J>) -> J::Out
    requires needs { J.needs (job_of running) }
    ensures { J.gives (job_of running) result }
{
    match running {
        Running::There(handle) => handle.join(rt),
        Running::Here(job) => job.run(rt),
    }
}
