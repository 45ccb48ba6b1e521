ghost use Rattle.std.specs.Prelude.{◌≡◌};

use crate::job::Job;
use crate::spawner::Spawner;
use std::alloc::Global;

/// A spawner that refuses no start: a job for which no thread can be made runs when it is joined.
#[derive(Drop)]
pub struct Sure {
    alloc: Global,
    pub(crate) started: u64,
    pub(crate) joined: u64,
    pub(crate) carried: u64,
}

impl Sure {
    /// A spawner that has started nothing.
    pub fn new(alloc: Global) -> Sure
        ensures started { result.started ≡ 0 }
        ensures joined { result.joined ≡ 0 }
        ensures carried { result.carried ≡ 0 }
    {
        Sure {
            alloc,
            started: 0,
            joined: 0,
            carried: 0,
        }
    }
}

impl<J: Job> Spawner<J> for Sure {
    ghost faults = { λ _. 0 };

    ghost started = { λ s. s.started };

    ghost joined = { λ s. s.joined };

    ghost carried = { λ s. s.carried };

    fn alloc(&self) -> Global {
        self.alloc
    }

    fn refuses(&mut self) -> bool {
        false
    }

    fn keeps(&mut self) -> bool {
        true
    }

    fn count_start(&mut self) {
        self.started = self.started.saturating_add(1);
    }

    fn count_join(&mut self, steps: u64) {
        self.joined = self.joined.saturating_add(1);
        self.carried = self.carried.saturating_add(steps);
    }
}
