//! Locks of a mutex that may not be there, or not be held [thread.lock.unique].
ghost use Rattle.std.specs.Prelude.{◌≡◌, ◌≤◌, ◌+◌, Some, None, Err, IsSome, IsOk, IfSome, IfOk, IfErr, MatchOption, pos};
ghost use Rattle.cx_names.specs.declared.Errc.TheVariants as errors;
ghost use Rattle.cx_names.specs.declared.Reply.TheVariants as replies;
ghost use Rattle.cx_machine.specs.declared.kind.Op.TheVariants as ops;
ghost use Rattle.cx_machine.specs.Meaning.{change};
ghost use Rattle.cx_mutex.specs.Mutexes.{IsMutexPass, IsBare, IsHeldBy, MutexMakes, UniqueTries};

use crate::mutex::{Hold, Mutex, MutexPass, Tried};
use cx_names::Errc;
use std::sync::Wait;

/// A mutex, if there is one, and the hold of it, if it is held.
pub struct UniqueLock<'a> {
    pub mutex: Option<&'a Mutex>,
    pub held: Option<Hold>,
}

impl<'a> UniqueLock<'a> {
    // The mutex, where there is one that isn't held.
    fn unheld(&self) -> Result<&'a Mutex, Errc>
        ensures no_mutex { self.now.mutex ≡ None → result ≡ Err errors.OperationNotPermitted }
        ensures owned { IsSome self.now.mutex → IsSome self.now.held → result ≡ Err errors.ResourceDeadlockWouldOccur }
        ensures free { IsSome self.now.mutex → self.now.held ≡ None → IsOk result }
        ensures mutex { IfOk result (λ m. (self.now.mutex ≡ Some m) × (self.now.held ≡ None)) }
    {
        match self.mutex {
            None => Err(Errc::OperationNotPermitted),
            Some(_) if self.held.is_some() => Err(Errc::ResourceDeadlockWouldOccur),
            Some(mutex) => Ok(mutex),
        }
    }

    /// Waits until nobody owns the mutex, and locks it. Gives the position.
    ///
    /// Refuses OperationNotPermitted where there is no mutex, and ResourceDeadlockWouldOccur where it
    /// is held. A refusal changes nothing.
    pub fn lock<R: Wait>(&mut self, rt: &R, pass: &mut MutexPass) -> Result<u32, Errc>
        requires pass { IfSome self.old.mutex (λ m. IsMutexPass m.now pass.old × (1 ≤ pass.old.left)) }
        requires held { IfSome self.old.mutex (λ m. MatchOption self.old.held (IsBare m.now pass.old) (λ h. IsHeldBy m.now pass.old h)) }
        ensures no_mutex { self.old.mutex ≡ None → result ≡ Err errors.OperationNotPermitted }
        ensures owned { IsSome self.old.mutex → IsSome self.old.held → result ≡ Err errors.ResourceDeadlockWouldOccur }
        ensures free { IsSome self.old.mutex → self.old.held ≡ None → IsOk result }
        ensures refused { IfErr result (λ e. (self.new ≡ self.old) × (pass.new ≡ pass.old)) }
        ensures mutex { self.new.mutex ≡ self.old.mutex }
        ensures locked { IfOk result (λ k. IfSome self.old.mutex (λ m. IsMutexPass m.now pass.new × MatchOption self.new.held ⊥ (λ h. IsHeldBy m.now pass.new h) × MutexMakes m.now pass.old pass.new (change pass.old.number ops.Lock (pos 0) (pos 0) replies.Ok) k)) }
    {
        let mutex = match self.unheld() {
            Ok(mutex) => mutex,
            Err(refusal) => return Err(refusal),
        };
        let (hold, at) = mutex.lock(rt, pass);
        self.held = Some(hold);
        Ok(at)
    }

    /// Locks the mutex if nobody owns it. Gives whether it did, and the position, or else the stamp of
    /// the look that found an owner.
    ///
    /// Refuses as `lock` does.
    pub fn try_lock<R: Wait>(&mut self, rt: &R, pass: &mut MutexPass) -> Result<(bool, u32), Errc>
        requires pass { IfSome self.old.mutex (λ m. IsMutexPass m.now pass.old × (1 ≤ pass.old.left)) }
        requires held { IfSome self.old.mutex (λ m. MatchOption self.old.held (IsBare m.now pass.old) (λ h. IsHeldBy m.now pass.old h)) }
        ensures no_mutex { self.old.mutex ≡ None → result ≡ Err errors.OperationNotPermitted }
        ensures owned { IsSome self.old.mutex → IsSome self.old.held → result ≡ Err errors.ResourceDeadlockWouldOccur }
        ensures free { IsSome self.old.mutex → self.old.held ≡ None → IsOk result }
        ensures refused { IfErr result (λ e. (self.new ≡ self.old) × (pass.new ≡ pass.old)) }
        ensures mutex { self.new.mutex ≡ self.old.mutex }
        ensures tried { IfOk result (λ t. IfSome self.old.mutex (λ m. IsMutexPass m.now pass.new × UniqueTries m.now pass.old pass.new self.new.held t.0 t.1)) }
    {
        let mutex = match self.unheld() {
            Ok(mutex) => mutex,
            Err(refusal) => return Err(refusal),
        };
        match mutex.try_lock(rt, pass) {
            Tried::Got(hold, at) => {
                self.held = Some(hold);
                Ok((true, at))
            }
            Tried::Not(at) => Ok((false, at)),
        }
    }

    /// Unlocks the mutex, and gives the position.
    ///
    /// Refuses OperationNotPermitted where it isn't held. A refusal changes nothing.
    pub fn unlock<R: Wait>(&mut self, rt: &R, pass: &mut MutexPass) -> Result<u32, Errc>
        requires pass { IfSome self.old.mutex (λ m. IsMutexPass m.now pass.old × (1 ≤ pass.old.left)) }
        requires held { IfSome self.old.mutex (λ m. MatchOption self.old.held (IsBare m.now pass.old) (λ h. IsHeldBy m.now pass.old h)) }
        requires none { self.old.mutex ≡ None → self.old.held ≡ None }
        ensures not_owned { self.old.held ≡ None → result ≡ Err errors.OperationNotPermitted }
        ensures owned { IsSome self.old.mutex → IsSome self.old.held → IsOk result }
        ensures refused { IfErr result (λ e. (self.new ≡ self.old) × (pass.new ≡ pass.old)) }
        ensures mutex { self.new.mutex ≡ self.old.mutex }
        ensures unlocked { IfOk result (λ k. IfSome self.old.mutex (λ m. (self.new.held ≡ None) × IsMutexPass m.now pass.new × IsBare m.now pass.new × MutexMakes m.now pass.old pass.new (change pass.old.number ops.Unlock (pos 0) (pos 0) replies.Ok) k)) }
    {
        let Some(mutex) = self.mutex else {
            return Err(Errc::OperationNotPermitted);
        };
        let Some(hold) = self.held.take() else {
            return Err(Errc::OperationNotPermitted);
        };
        Ok(mutex.unlock(rt, pass, hold))
    }
}
