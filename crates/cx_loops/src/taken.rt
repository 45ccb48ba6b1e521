//! What a loop took, and why one could not be run.
use cx_names::NoMemory;
use std::alloc::{AllocError, AllocFailed};
use std::rt::Clock;
use std::time::{Duration, Instant};

/// How many calls a loop made, and in what time.
#[derive(Drop)]
pub struct Taken {
    pub calls: u32,
    pub time: Duration,
}

/// There was no memory, no clock or no thread.
#[derive(Clone, Copy)]
pub struct Want;

impl From<NoMemory> for Want {
    fn from(_: NoMemory) -> Want {
        Want
    }
}

impl From<AllocError> for Want {
    fn from(_: AllocError) -> Want {
        Want
    }
}

impl<T: Drop> From<AllocFailed<T>> for Want {
    fn from(_: AllocFailed<T>) -> Want {
        Want
    }
}

/// The time now.
pub fn begin<R: Clock>(rt: &R) -> Result<Instant, Want> {
    Instant::now(rt).map_err(|_| Want)
}

/// So many calls, made since then.
pub fn made_since<R: Clock>(rt: &R, start: Instant, calls: u32) -> Result<Taken, Want> {
    match start.elapsed(rt) {
        Ok(time) => Ok(Taken { calls, time }),
        Err(_) => Err(Want),
    }
}
