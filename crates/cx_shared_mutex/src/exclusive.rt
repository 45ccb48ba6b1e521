//! The calls of a writer [thread.mutex.requirements.mutex].
use crate::holds::{Hold, Tried};
use crate::shared_mutex::{SharedMutex, SharedPass};
use cx_machine::Op;
use cx_turn::Either;
use std::sync::Wait;

impl SharedMutex {
    ghost use Rattle.std.specs.Prelude.{◌≡◌, ◌+◌, ◌≤◌, pos};
    ghost use Rattle.cx_names.specs.declared.Reply.TheVariants as replies;
    ghost use Rattle.cx_machine.specs.declared.kind.Op.TheVariants as ops;
    ghost use Rattle.cx_machine.specs.Meaning.{change};
    ghost use Rattle.cx_shared_mutex.specs.SharedMutexes.{IsSharedPass, IsBare, IsHeldBy, SharedMakes, TriesLock};

    /// Waits until nobody owns the mutex, and locks it. Gives the hold and the position.
    pub fn lock<R: Wait>(&self, rt: &R, pass: &mut SharedPass) -> (Hold, u32)
        requires pass { IsSharedPass self.now pass.old }
        requires left { 1 ≤ pass.old.left }
        requires bare { IsBare self.now pass.old }
        ensures idle { IsSharedPass self.now pass.new }
        ensures left { pass.new.left + 1 ≡ pass.old.left }
        ensures held { IsHeldBy self.now pass.new result.0 }
        ensures made { SharedMakes self.now pass.old pass.new (change pass.old.number ops.Lock (pos 0) (pos 0) replies.Ok) result.1 }
    {
        let (_, at) = self.cell.wait_change(rt, pass, Op::Lock, 0, 0);
        (Hold { by: pass.number() }, at)
    }

    /// Locks the mutex if nobody owns it. Gives Not exactly where another thread was found to be the
    /// writer or a reader, and then no change is used up.
    pub fn try_lock<R: Wait>(&self, rt: &R, pass: &mut SharedPass) -> Tried<Hold>
        requires pass { IsSharedPass self.now pass.old }
        requires left { 1 ≤ pass.old.left }
        requires bare { IsBare self.now pass.old }
        ensures idle { IsSharedPass self.now pass.new }
        ensures tried { TriesLock self.now pass.old pass.new result }
    {
        match self
            .cell
            .try_either(rt, pass, Op::TryLock, Op::TryLock, 0, 0)
        {
            Some(done) => match done {
                Either::Made(_, at) => Tried::Got(Hold { by: pass.number() }, at),
                Either::Seen(_, at) => Tried::Not(at),
            },
            None => unreachable!(),
        }
    }

    /// Unlocks the mutex, and gives the position. Never waits.
    pub fn unlock<R: Wait>(&self, rt: &R, pass: &mut SharedPass, hold: Hold) -> u32
        requires pass { IsSharedPass self.now pass.old }
        requires left { 1 ≤ pass.old.left }
        requires held { IsHeldBy self.now pass.old hold }
        ensures idle { IsSharedPass self.now pass.new }
        ensures left { pass.new.left + 1 ≡ pass.old.left }
        ensures bare { IsBare self.now pass.new }
        ensures made { SharedMakes self.now pass.old pass.new (change pass.old.number ops.Unlock (pos 0) (pos 0) replies.Ok) result }
    {
        let _ = hold;
        match self.cell.try_change(rt, pass, Op::Unlock, 0, 0) {
            Some((_, at)) => at,
            None => unreachable!(),
        }
    }
}
