//! How a job gets to a thread that was started before it.
ghost use Rattle.std.specs.Prelude.{◌≡◌, Option, Some, None};

use crate::job::Job;
use std::marker::{Brand, PhantomData};
use std::sync::{Condvar, Mutex, Wait};

/// Which job it is. Each start picks it.
pub trait Picked<J> {
    ghost job: { Option J };
}

impl<J> Picked<J> for Brand {
    ghost job = { None };
}

/// The job that was picked.
#[derive(Drop)]
pub struct Parcel<J: Job, B: Picked<J>> {
    job: J,
    of: PhantomData<B>,
    ghost is: { B.job ≡ Some job },
}

impl<J: Job, B: Picked<J>> Parcel<J, B> {
    /// Wraps the job that was picked.
    pub fn new(job: J) -> Self
        requires { B.job ≡ Some job }
    {
        Parcel {
            job,
            of: PhantomData,
        }
    }

    /// The job that was picked.
    pub fn open(self) -> J
        ensures { B.job ≡ Some result }
    {
        self.job
    }
}

/// Where a starter leaves the job, and where the thread waits for it.
#[derive(Drop)]
pub struct Hatch<J: Job, B: Picked<J>> {
    slot: Mutex<Option<Parcel<J, B>>>,
    filled: Condvar,
}

impl<J: Job, B: Picked<J>> Hatch<J, B> {
    /// An empty hatch.
    pub fn new() -> Self {
        Hatch {
            slot: Mutex::new(None),
            filled: Condvar::new(),
        }
    }

    /// Leaves the job for the thread.
    pub fn put<R: Wait>(&self, rt: &R, parcel: Parcel<J, B>) {
        *self.slot.lock(rt) = Some(parcel);
        self.filled.notify_one();
    }

    /// Waits for the job.
    pub fn take<R: Wait>(&self, rt: &R) -> J
        ensures { B.job ≡ Some result }
    {
        for _ in rt.forever() {
            let mut slot = self
                .filled
                .wait_while(rt, self.slot.lock(rt), |slot| slot.is_none());
            if let Some(parcel) = slot.take() {
                return parcel.open();
            }
        }
        unreachable!()
    }
}
