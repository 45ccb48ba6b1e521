//! The calls of a reader [thread.sharedmutex.requirements.general].
use crate::holds::{Shared, Tried};
use crate::shared_mutex::{SharedMutex, SharedPass};
use cx_machine::Op;
use cx_turn::Either;
use std::sync::Wait;

impl SharedMutex {
    ghost use Rattle.std.specs.Prelude.{◌≡◌, ◌+◌, ◌≤◌, pos};
    ghost use Rattle.cx_names.specs.declared.Reply.TheVariants as replies;
    ghost use Rattle.cx_machine.specs.declared.kind.Op.TheVariants as ops;
    ghost use Rattle.cx_machine.specs.Meaning.{change};
    ghost use Rattle.cx_shared_mutex.specs.SharedMutexes.{IsSharedPass, IsBare, IsSharedBy, SharedMakes, TriesShared};

    /// Waits until there is no writer, and shares the mutex. Gives the hold and the position.
    pub fn lock_shared<R: Wait>(&self, rt: &R, pass: &mut SharedPass) -> (Shared, u32)
        requires pass { IsSharedPass self.now pass.old }
        requires left { 1 ≤ pass.old.left }
        requires bare { IsBare self.now pass.old }
        ensures idle { IsSharedPass self.now pass.new }
        ensures left { pass.new.left + 1 ≡ pass.old.left }
        ensures shared { IsSharedBy self.now pass.new result.0 }
        ensures made { SharedMakes self.now pass.old pass.new (change pass.old.number ops.LockShared (pos 0) (pos 0) replies.Ok) result.1 }
    {
        let (_, at) = self.cell.wait_change(rt, pass, Op::LockShared, 0, 0);
        (Shared { by: pass.number() }, at)
    }

    /// Shares the mutex if there is no writer. Gives Not exactly where another thread was found to be the
    /// writer, and then no change is used up.
    pub fn try_lock_shared<R: Wait>(&self, rt: &R, pass: &mut SharedPass) -> Tried<Shared>
        requires pass { IsSharedPass self.now pass.old }
        requires left { 1 ≤ pass.old.left }
        requires bare { IsBare self.now pass.old }
        ensures idle { IsSharedPass self.now pass.new }
        ensures tried { TriesShared self.now pass.old pass.new result }
    {
        match self
            .cell
            .try_either(rt, pass, Op::TryLockShared, Op::TryLockShared, 0, 0)
        {
            Some(done) => match done {
                Either::Made(_, at) => Tried::Got(Shared { by: pass.number() }, at),
                Either::Seen(_, at) => Tried::Not(at),
            },
            None => unreachable!(),
        }
    }

    /// Gives the shared hold back, and gives the position. Never waits.
    pub fn unlock_shared<R: Wait>(&self, rt: &R, pass: &mut SharedPass, shared: Shared) -> u32
        requires pass { IsSharedPass self.now pass.old }
        requires left { 1 ≤ pass.old.left }
        requires shared { IsSharedBy self.now pass.old shared }
        ensures idle { IsSharedPass self.now pass.new }
        ensures left { pass.new.left + 1 ≡ pass.old.left }
        ensures bare { IsBare self.now pass.new }
        ensures made { SharedMakes self.now pass.old pass.new (change pass.old.number ops.UnlockShared (pos 0) (pos 0) replies.Ok) result }
    {
        let _ = shared;
        match self.cell.try_change(rt, pass, Op::UnlockShared, 0, 0) {
            Some((_, at)) => at,
            None => unreachable!(),
        }
    }
}
