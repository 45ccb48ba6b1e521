ghost use Rattle.std.specs.Prelude.{◌≡◌, ◌≤◌, ◌↔◌, IsTrue};

use crate::job::Job;
use crate::spawner::Spawner;
use std::alloc::Global;

/// A spawner that refuses chosen starts, and starts the others as [`crate::Sure`] does.
#[derive(Drop)]
pub struct Listed {
    alloc: Global,
    refused: Vec<u64>,
    next: u64,
    pub(crate) faults: u64,
    pub(crate) started: u64,
    pub(crate) joined: u64,
    pub(crate) carried: u64,
}

impl Listed {
    /// A spawner that has started nothing, and refuses the starts with the numbers in `refused`, counted from 1.
    pub fn new(alloc: Global, refused: Vec<u64>) -> Listed
        ensures refused { result.refused ≡ refused }
        ensures next { result.next ≡ 1 }
        ensures faults { result.faults ≡ 0 }
        ensures started { result.started ≡ 0 }
        ensures joined { result.joined ≡ 0 }
        ensures carried { result.carried ≡ 0 }
    {
        Listed {
            alloc,
            refused,
            next: 1,
            faults: 0,
            started: 0,
            joined: 0,
            carried: 0,
        }
    }
}

impl<J: Job> Spawner<J> for Listed {
    ghost use Rattle.cx_io.specs.Edge.{Rose};
    ghost use Rattle.cx_io.specs.Spawning.{IsListed};

    ghost faults = { λ s. s.faults };

    ghost started = { λ s. s.started };

    ghost joined = { λ s. s.joined };

    ghost carried = { λ s. s.carried };

    fn alloc(&self) -> Global {
        self.alloc
    }

    /// True exactly where the number of this start is listed.
    fn refuses(&mut self) -> bool
        ensures exactly { IsTrue result ↔ IsListed self.old.refused.items self.old.next }
        ensures cause { IsTrue result → Rose self.old.faults self.new.faults }
        ensures faults { self.old.faults ≤ self.new.faults }
        ensures started { self.new.started ≡ self.old.started }
        ensures joined { self.new.joined ≡ self.old.joined }
        ensures carried { self.new.carried ≡ self.old.carried }
    {
        let number = self.next;
        self.next = self.next.saturating_add(1);
        let listed = self.refused.contains(&number);
        if listed {
            self.faults = self.faults.saturating_add(1);
        }
        listed
    }

    fn keeps(&mut self) -> bool {
        true
    }

    fn count_start(&mut self) {
        self.started = self.started.saturating_add(1);
    }

    fn count_join(&mut self, steps: u64) {
        self.joined = self.joined.saturating_add(1);
        self.carried = self.carried.saturating_add(steps);
    }
}
