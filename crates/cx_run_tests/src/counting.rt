//! A spawner whose counts are seen.
use cx_io::{Job, Spawner};
use std::alloc::Global;

/// The system's threads, and what was done with them.
#[derive(Drop)]
pub(crate) struct Counting {
    alloc: Global,
    faults: u64,
    pub(crate) started: u64,
    pub(crate) joined: u64,
    pub(crate) carried: u64,
}

impl Counting {
    pub(crate) fn new(alloc: Global) -> Counting {
        Counting {
            alloc,
            faults: 0,
            started: 0,
            joined: 0,
            carried: 0,
        }
    }
}

impl<J: Job> Spawner<J> for Counting {
    ghost faults = { λ s. s.faults };

    ghost started = { λ s. s.started };

    ghost joined = { λ s. s.joined };

    ghost carried = { λ s. s.carried };

    fn alloc(&self) -> Global {
        self.alloc
    }

    fn refuses(&mut self) -> bool {
        false
    }

    fn keeps(&mut self) -> bool {
        self.faults = self.faults.saturating_add(1);
        false
    }

    fn count_start(&mut self) {
        self.started = self.started.saturating_add(1);
    }

    fn count_join(&mut self, steps: u64) {
        self.joined = self.joined.saturating_add(1);
        self.carried = self.carried.saturating_add(steps);
    }
}
