//! A condition can wait with a shared mutex, by its exclusive calls.
use crate::holds::Hold;
use crate::shared_mutex::{SharedMutex, SharedPass};
use cx_machine::SharedMachine;
use cx_turn::Lockable;
use std::sync::Wait;

impl Lockable for SharedMutex {
    ghost use Rattle.std.specs.Prelude.{refl};
    ghost use Rattle.cx_shared_mutex.specs.SharedMutexes.{IsSharedPassWith, IsBare, IsHeldBy};
    ghost use Rattle.cx_shared_mutex.specs.Keys.{locks, unlocks};

    type M = SharedMachine;

    type Key = SharedPass;

    type Hold = Hold;

    ghost knows = { IsSharedPassWith };

    ghost number = { λ p. p.number };

    ghost left = { λ p. p.left };

    ghost is_bare = { IsBare };

    ghost is_held = { IsHeldBy };

    ghost taking = { locks };

    ghost giving = { unlocks };

    fn acquire<R: Wait>(&self, rt: &R, key: &mut SharedPass) -> (Hold, u32) {
        self.lock(rt, key)
    }

    fn release<R: Wait>(&self, rt: &R, key: &mut SharedPass, hold: Hold) -> u32 {
        self.unlock(rt, key, hold)
    }

    ghost own = { λ t. (refl, refl) };

    ghost numbered = { λ x k v is. is.numbered };
}
