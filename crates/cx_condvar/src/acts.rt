//! The single acts on a condition: a wait is made of them, and of what its lock offers.
ghost use Rattle.std.specs.Prelude.{◌≡◌, ℕ, pos, Some, ◌<◌, ◌^◌};
ghost use Rattle.cx_names.specs.declared.Reply.TheVariants as replies;
ghost use Rattle.cx_condvar.specs.Acts.{IsNotifiedReply, notified_in};

use crate::condvar::{CondPass, CondvarAny};
use cx_machine::Op;
use cx_names::{Reply, ThreadNo};
use std::sync::Wait;

/// What a thread has that entered: it waits, or was notified and is to go on.
#[derive(Drop, Debug, PartialEq, Eq)]
pub struct Entered {
    pub(crate) by: ThreadNo,
}

// The thread that a notification of one picked.
fn picked(reply: Reply) -> Option<ThreadNo>
    requires { IsNotifiedReply reply }
    ensures { reply ≡ notified_in result }
{
    match reply {
        Reply::Thread(thread) => Some(thread),
        _ => None,
    }
}

// The number that a notification of all replies.
fn count_in(reply: Reply) -> u32
    requires { (n : ℕ) × (reply ≡ replies.Number (pos n)) × (n < 2 ^ 32) }
    ensures { reply ≡ replies.Number (pos result) }
{
    match reply {
        Reply::Number(count) => count as u32,
        _ => unreachable!(),
    }
}

impl CondvarAny {
    ghost use Rattle.std.specs.Prelude.{◌≡◌, ◌+◌, ◌≤◌, pos, IfOk, IfErr};
    ghost use Rattle.cx_names.specs.declared.Reply.TheVariants as replies;
    ghost use Rattle.cx_machine.specs.declared.kind.Op.TheVariants as ops;
    ghost use Rattle.cx_machine.specs.Meaning.{change};
    ghost use Rattle.cx_condvar.specs.Condvars.{IsCondPass, IsOut, IsIn, StaysAsItWas, CondMakes};
    ghost use Rattle.cx_condvar.specs.Acts.{enters, unblocks, withdraws, NotifiesOne, FindsNotified};

    /// Enters: the thread is among those that wait. Gives what it has then, and the position. Never waits.
    pub fn enter<R: Wait>(&self, rt: &R, pass: &mut CondPass) -> (Entered, u32)
        requires pass { IsCondPass self.now pass.old }
        requires out { IsOut self.now pass.old }
        requires left { 1 ≤ pass.old.left }
        ensures idle { IsCondPass self.now pass.new }
        ensures left { pass.new.left + 1 ≡ pass.old.left }
        ensures number { pass.new.number ≡ pass.old.number }
        ensures entered { IsIn self.now pass.new result.0 }
        ensures made { CondMakes self.now pass.old pass.new (enters pass.old.number) result.1 }
    {
        match self.cell.try_change(rt, pass, Op::Enter, 0, 0) {
            Some((_, at)) => (Entered { by: pass.number() }, at),
            None => unreachable!(),
        }
    }

    /// Waits until the thread was notified, and goes on. Gives the position.
    pub fn unblock<R: Wait>(&self, rt: &R, pass: &mut CondPass, entered: Entered) -> u32
        requires pass { IsCondPass self.now pass.old }
        requires entered { IsIn self.now pass.old entered }
        requires left { 1 ≤ pass.old.left }
        ensures idle { IsCondPass self.now pass.new }
        ensures left { pass.new.left + 1 ≡ pass.old.left }
        ensures number { pass.new.number ≡ pass.old.number }
        ensures out { IsOut self.now pass.new }
        ensures made { CondMakes self.now pass.old pass.new (unblocks pass.old.number) result }
    {
        let _ = entered;
        let (_, at) = self.cell.wait_change(rt, pass, Op::Unblock, 0, 0);
        at
    }

    /// Waits no more, where the thread wasn't notified, and gives the position. Never waits.
    ///
    /// Returns what it has back exactly where it was notified: then it is to unblock.
    pub fn withdraw<R: Wait>(
        &self,
        rt: &R,
        pass: &mut CondPass,
        entered: Entered,
    ) -> Result<u32, Entered>
        requires pass { IsCondPass self.now pass.old }
        requires entered { IsIn self.now pass.old entered }
        requires left { 1 ≤ pass.old.left }
        ensures idle { IsCondPass self.now pass.new }
        ensures left { IfOk result (λ _. pass.new.left + 1 ≡ pass.old.left) }
        ensures unspent { IfErr result (λ _. pass.new.left ≡ pass.old.left) }
        ensures number { pass.new.number ≡ pass.old.number }
        ensures out { IfOk result (λ _. IsOut self.now pass.new) }
        ensures made { IfOk result (λ at. CondMakes self.now pass.old pass.new (withdraws pass.old.number) at) }
        ensures entered { IfErr result (λ e. IsIn self.now pass.new e) }
        ensures notified { IfErr result (λ _. FindsNotified self.now pass.old pass.new) }
    {
        match self.cell.try_change(rt, pass, Op::Withdraw, 0, 0) {
            Some((_, at)) => Ok(at),
            None => Err(entered),
        }
    }

    /// Notifies the thread that entered first of those that wait. Gives it, and the position. Never waits.
    ///
    /// Returns None exactly where nobody waits.
    pub fn notify_one<R: Wait>(&self, rt: &R, pass: &mut CondPass) -> (Option<ThreadNo>, u32)
        requires pass { IsCondPass self.now pass.old }
        requires left { 1 ≤ pass.old.left }
        ensures idle { IsCondPass self.now pass.new }
        ensures left { pass.new.left + 1 ≡ pass.old.left }
        ensures number { pass.new.number ≡ pass.old.number }
        ensures same { StaysAsItWas self.now pass.old pass.new }
        ensures notified { NotifiesOne self.now pass.old pass.new result.0 result.1 }
    {
        match self.cell.try_change(rt, pass, Op::NotifyOne, 0, 0) {
            Some((reply, at)) => (picked(reply), at),
            None => unreachable!(),
        }
    }

    /// Notifies all threads that wait. Gives how many these are, and the position. Never waits.
    pub fn notify_all<R: Wait>(&self, rt: &R, pass: &mut CondPass) -> (u32, u32)
        requires pass { IsCondPass self.now pass.old }
        requires left { 1 ≤ pass.old.left }
        ensures idle { IsCondPass self.now pass.new }
        ensures left { pass.new.left + 1 ≡ pass.old.left }
        ensures number { pass.new.number ≡ pass.old.number }
        ensures same { StaysAsItWas self.now pass.old pass.new }
        ensures notified { CondMakes self.now pass.old pass.new (change pass.old.number ops.NotifyAll (pos 0) (pos 0) (replies.Number (pos result.0))) result.1 }
    {
        match self.cell.try_change(rt, pass, Op::NotifyAll, 0, 0) {
            Some((reply, at)) => (count_in(reply), at),
            None => unreachable!(),
        }
    }
}
