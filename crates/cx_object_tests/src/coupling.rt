//! Hand over hand: a thread locks the next recursive mutex before it unlocks the one that it has.
ghost use Rattle.std.specs.Prelude.{◌≤◌, IfOk, IfErr};
ghost use Rattle.cx_mutex.specs.Recursives.{IsRecursivePass, IsLevelOf};

use cx_mutex::{Level, MutexPass, RecursiveMutex};
use std::sync::Wait;

/// Locks the mutex `to`, then gives the level of `from` back. Gives the new level, or else the old one
/// where no more levels of `to` are to be had.
pub fn hand_over<R: Wait>(
    rt: &R,
    from: &RecursiveMutex,
    of_from: &mut MutexPass,
    level: Level,
    to: &RecursiveMutex,
    of_to: &mut MutexPass,
) -> Result<Level, Level>
    requires from { IsRecursivePass from.now of_from.old × (1 ≤ of_from.old.left) }
    requires to { IsRecursivePass to.now of_to.old × (1 ≤ of_to.old.left) }
    requires level { IsLevelOf from.now of_from.old level }
    ensures next { IfOk result (λ l. IsLevelOf to.now of_to.new l) }
    ensures kept { IfErr result (λ l. IsLevelOf from.now of_from.new l) }
{
    match to.lock(rt, of_to) {
        Ok((next, _)) => {
            from.unlock(rt, of_from, level);
            Ok(next)
        }
        Err(_) => Err(level),
    }
}
