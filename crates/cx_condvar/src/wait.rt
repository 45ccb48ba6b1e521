//! A wait over any lock [thread.condition.condvarany].
use crate::acts::Entered;
use crate::condvar::{CondPass, CondvarAny};
use cx_turn::Lockable;
use std::sync::Wait;

/// Where the acts of a wait stand: `enter` and `unblock` in the condition's history, `unlock` and `lock` in
/// that of the lock.
#[derive(Clone, Copy, Debug, PartialEq, Eq)]
pub struct Waits {
    pub enter: u32,
    pub unlock: u32,
    pub unblock: u32,
    pub lock: u32,
}

impl CondvarAny {
    ghost use Rattle.std.specs.Prelude.{◌≡◌, ◌+◌, ◌≤◌};
    ghost use Rattle.cx_turn.specs.declared.view.View.{View};
    ghost use Rattle.cx_turn.specs.Acts.{Makes};
    ghost use Rattle.cx_condvar.specs.Condvars.{IsCondPass, IsOut, IsIn};
    ghost use Rattle.cx_condvar.specs.Waiting.{WaitsOnce, Relocks};

    // Gives the lock up, once the thread has entered, so that a notification by the next owner isn't lost.
    fn unlock_after<R: Wait, L: Lockable>(
        &self,
        rt: &R,
        pass: &CondPass,
        entered: &Entered,
        lock: &L,
        key: &mut L::Key,
        hold: L::Hold,
    ) -> u32
        requires entered { IsIn self.now pass.now entered.now }
        requires key { (v : View L.M) × L.knows lock.now key.old v }
        requires held { L.is_held lock.now key.old hold }
        requires key_left { 1 ≤ L.left key.old }
        ensures bare { L.is_bare lock.now key.new }
        ensures key_left { L.left key.new + 1 ≡ L.left key.old }
        ensures key_number { L.number key.new ≡ L.number key.old }
        ensures made { (v : View L.M) → L.knows lock.now key.old v → (w : View L.M) × L.knows lock.now key.new w × Makes L.M.Meaning v w (L.giving (L.number key.old)) result }
    {
        let _ = pass;
        let _ = entered;
        lock.release(rt, key, hold)
    }

    /// Waits until the thread is notified: it enters, gives the lock up, unblocks, and takes the lock again.
    /// Gives the lock's hold, and where the four acts stand.
    pub fn wait<R: Wait, L: Lockable>(
        &self,
        rt: &R,
        pass: &mut CondPass,
        lock: &L,
        key: &mut L::Key,
        hold: L::Hold,
    ) -> (L::Hold, Waits)
        requires pass { IsCondPass self.now pass.old }
        requires out { IsOut self.now pass.old }
        requires left { 2 ≤ pass.old.left }
        requires key { (v : View L.M) × L.knows lock.now key.old v }
        requires held { L.is_held lock.now key.old hold }
        requires key_left { 2 ≤ L.left key.old }
        ensures idle { IsCondPass self.now pass.new }
        ensures left { pass.new.left + 2 ≡ pass.old.left }
        ensures number { pass.new.number ≡ pass.old.number }
        ensures out { IsOut self.now pass.new }
        ensures held { L.is_held lock.now key.new result.0 }
        ensures key { (v : View L.M) × L.knows lock.now key.new v }
        ensures key_left { L.left key.new + 2 ≡ L.left key.old }
        ensures key_number { L.number key.new ≡ L.number key.old }
        ensures waited { WaitsOnce self.now pass.old pass.new result.1 }
        ensures relocked { Relocks L.M.Meaning (L.knows lock.now) (L.giving (L.number key.old)) (L.taking (L.number key.old)) key.old key.new result.1 }
    {
        let (entered, enter) = self.enter(rt, pass);
        let unlock = self.unlock_after(rt, pass, &entered, lock, key, hold);
        let unblock = self.unblock(rt, pass, entered);
        let (hold, lock) = lock.acquire(rt, key);
        let waits = Waits {
            enter,
            unlock,
            unblock,
            lock,
        };
        (hold, waits)
    }
}
