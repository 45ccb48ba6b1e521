//! A condition can wait with a mutex.
use crate::mutex::{Hold, Mutex, MutexPass};
use cx_machine::MutexMachine;
use cx_turn::Lockable;
use std::sync::Wait;

impl Lockable for Mutex {
    ghost use Rattle.std.specs.Prelude.{refl};
    ghost use Rattle.cx_mutex.specs.Mutexes.{IsMutexPassWith, IsBare, IsHeldBy};
    ghost use Rattle.cx_mutex.specs.Keys.{locks, unlocks};

    type M = MutexMachine;

    type Key = MutexPass;

    type Hold = Hold;

    ghost knows = { IsMutexPassWith };

    ghost number = { λ p. p.number };

    ghost left = { λ p. p.left };

    ghost is_bare = { IsBare };

    ghost is_held = { IsHeldBy };

    ghost taking = { locks };

    ghost giving = { unlocks };

    fn acquire<R: Wait>(&self, rt: &R, key: &mut MutexPass) -> (Hold, u32) {
        self.lock(rt, key)
    }

    fn release<R: Wait>(&self, rt: &R, key: &mut MutexPass, hold: Hold) -> u32 {
        self.unlock(rt, key, hold)
    }

    ghost own = { λ t. (refl, refl) };

    ghost numbered = { λ x k v is. is.numbered };
}
