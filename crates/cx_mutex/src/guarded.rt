//! The numbers that a mutex guards. Its owner alone reads and changes them.
ghost use Rattle.std.specs.Prelude.{◌≡◌, ◌+◌, ◌<◌, ◌≤◌, ℤ, pos, IfOk, IfErr};
ghost use Rattle.cx_names.specs.declared.Reply.TheVariants as replies;
ghost use Rattle.cx_machine.specs.declared.kind.Op.TheVariants as ops;
ghost use Rattle.cx_machine.specs.Meaning.{change, look_of};
ghost use Rattle.cx_mutex.specs.Mutexes.{IsMutexPass, IsHeldBy, MutexMakes, MutexLooks};

use crate::mutex::{Hold, Mutex, MutexPass};
use cx_machine::Op;
use cx_names::Reply;
use cx_turn::Either;
use std::sync::Wait;

/// A sum was refused: after the first `at` changes it was no number of 64 bits.
#[derive(Clone, Copy, Debug, PartialEq, Eq)]
pub struct Overflow {
    pub at: u32,
}

// The number that a reply is.
fn number_in(reply: Reply) -> i64
    requires { (n : ℤ) × (reply ≡ replies.Number n) }
    ensures { reply ≡ replies.Number result }
{
    match reply {
        Reply::Number(n) => n,
        _ => unreachable!(),
    }
}

impl Mutex {
    /// How many numbers it guards.
    pub fn numbers(&self) -> u8
        ensures { result ≡ self.now.numbers }
    {
        self.numbers
    }

    /// Gives the number at the index `i`, and the stamp.
    pub fn get<R: Wait>(&self, rt: &R, pass: &mut MutexPass, hold: &Hold, i: u8) -> (i64, u32)
        requires pass { IsMutexPass self.now pass.old }
        requires held { IsHeldBy self.now pass.old hold.now }
        requires index { i < self.now.numbers }
        ensures idle { IsMutexPass self.now pass.new }
        ensures left { pass.new.left ≡ pass.old.left }
        ensures held { IsHeldBy self.now pass.new hold.now }
        ensures seen { MutexLooks self.now pass.old pass.new (look_of pass.old.number ops.Get (pos i) (pos 0) (replies.Number result.0) result.1) }
    {
        let _ = hold;
        match self.cell.look(rt, pass, Op::Get, i as i64, 0) {
            Some((reply, at)) => (number_in(reply), at),
            None => unreachable!(),
        }
    }

    /// Makes `v` the number at the index `i`, and gives the position.
    pub fn set<R: Wait>(&self, rt: &R, pass: &mut MutexPass, hold: &Hold, i: u8, v: i64) -> u32
        requires pass { IsMutexPass self.now pass.old }
        requires left { 1 ≤ pass.old.left }
        requires held { IsHeldBy self.now pass.old hold.now }
        requires index { i < self.now.numbers }
        ensures idle { IsMutexPass self.now pass.new }
        ensures left { pass.new.left + 1 ≡ pass.old.left }
        ensures held { IsHeldBy self.now pass.new hold.now }
        ensures made { MutexMakes self.now pass.old pass.new (change pass.old.number ops.Set (pos i) v replies.Ok) result }
    {
        let _ = hold;
        match self.cell.try_change(rt, pass, Op::Set, i as i64, v) {
            Some((_, at)) => at,
            None => unreachable!(),
        }
    }

    /// Adds `v` to the number at the index `i`. Gives the sum and the position.
    ///
    /// Overflow exactly where the sum is no number of 64 bits. The number is then unchanged.
    pub fn add<R: Wait>(
        &self,
        rt: &R,
        pass: &mut MutexPass,
        hold: &Hold,
        i: u8,
        v: i64,
    ) -> Result<(i64, u32), Overflow>
        requires pass { IsMutexPass self.now pass.old }
        requires left { 1 ≤ pass.old.left }
        requires held { IsHeldBy self.now pass.old hold.now }
        requires index { i < self.now.numbers }
        ensures idle { IsMutexPass self.now pass.new }
        ensures left { IfOk result (λ _. pass.new.left + 1 ≡ pass.old.left) }
        ensures unspent { IfErr result (λ _. pass.new.left ≡ pass.old.left) }
        ensures held { IsHeldBy self.now pass.new hold.now }
        ensures added { IfOk result (λ t. MutexMakes self.now pass.old pass.new (change pass.old.number ops.Add (pos i) v (replies.Number t.0)) t.1) }
        ensures over { IfErr result (λ o. MutexLooks self.now pass.old pass.new (look_of pass.old.number ops.Add (pos i) v replies.Overflow o.at)) }
    {
        let _ = hold;
        match self
            .cell
            .try_either(rt, pass, Op::Add, Op::Add, i as i64, v)
        {
            Some(done) => match done {
                Either::Made(reply, at) => Ok((number_in(reply), at)),
                Either::Seen(_, at) => Err(Overflow { at }),
            },
            None => unreachable!(),
        }
    }
}
