ghost use Rattle.std.specs.Prelude.{◌≡◌};

use crate::job::Job;
use crate::spawner::Spawner;
use std::alloc::Global;

/// The system's threads. A start is refused where no thread can be made, or there is no memory for handing the job
/// over.
#[derive(Drop)]
pub struct Real {
    alloc: Global,
    pub(crate) faults: u64,
    pub(crate) started: u64,
    pub(crate) joined: u64,
    pub(crate) carried: u64,
}

impl Real {
    /// A spawner that has started nothing.
    pub fn new(alloc: Global) -> Real
        ensures faults { result.faults ≡ 0 }
        ensures started { result.started ≡ 0 }
        ensures joined { result.joined ≡ 0 }
        ensures carried { result.carried ≡ 0 }
    {
        Real {
            alloc,
            faults: 0,
            started: 0,
            joined: 0,
            carried: 0,
        }
    }
}

impl<J: Job> Spawner<J> for Real {
    ghost faults = { λ s. s.faults };

    ghost started = { λ s. s.started };

    ghost joined = { λ s. s.joined };

    ghost carried = { λ s. s.carried };

    fn alloc(&self) -> Global {
        self.alloc
    }

    fn refuses(&mut self) -> bool {
        false
    }

    fn keeps(&mut self) -> bool {
        self.faults = self.faults.saturating_add(1);
        false
    }

    fn count_start(&mut self) {
        self.started = self.started.saturating_add(1);
    }

    fn count_join(&mut self, steps: u64) {
        self.joined = self.joined.saturating_add(1);
        self.carried = self.carried.saturating_add(steps);
    }
}
