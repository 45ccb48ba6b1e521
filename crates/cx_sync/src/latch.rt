//! Latches [thread.latch.class].
use cx_cell::Cell;
use cx_machine::{LatchMachine, LatchState, Op};
use cx_names::{NoMemory, Reply};
use cx_turn::Pass;
use std::alloc::Global;
use std::sync::Wait;

/// A caller's token on one latch. Its share is what it may count down.
pub type LatchPass = Pass<LatchMachine>;

/// A latch: a counter that only falls.
#[derive(Drop)]
pub struct Latch {
    pub(crate) cell: Cell<LatchMachine, LatchState>,
}

impl Latch {
    ghost use Rattle.std.specs.Prelude.{◌≡◌, ◌+◌, ◌<◌, ◌≤◌, ◌^◌, ℕ, pos, IfOk, if◌then◌else◌};
    ghost use Rattle.cx_names.specs.declared.Reply.TheVariants as replies;
    ghost use Rattle.cx_machine.specs.declared.kind.Op.TheVariants as ops;
    ghost use Rattle.cx_machine.specs.Meaning.{change, look_of};
    ghost use Rattle.cx_machine.specs.Latch.{opening};
    ghost use Rattle.cx_machine.specs.Latch as latch;
    ghost use Rattle.cx_turn.specs.declared.view.View.{View};
    ghost use Rattle.cx_turn.specs.Views.{opening_view, split_left, split_right, both_of, having_met, less_share, given};
    ghost use Rattle.cx_turn.specs.Acts.{Makes, Looks};
    ghost use Rattle.cx_sync.specs.Kinds.{latching};
    ghost use Rattle.cx_sync.specs.Sync.{IsLatchPass, IsLatchPassWith, latch_seats, LatchMakes, LatchLooks};

    /// A latch with this counter, for at most `seats` passes and `calls` changes, and its first pass,
    /// whose share is the whole count.
    pub fn new(
        alloc: Global,
        count: u32,
        seats: u32,
        calls: u32,
    ) -> Result<(Latch, LatchPass), NoMemory>
        requires counter { count ≤ 65535 }
        requires seats { (1 ≤ seats) × (seats ≤ 256) }
        requires calls { calls < 2 ^ 28 }
        ensures seats { IfOk result (λ t. latch_seats t.0 ≡ seats) }
        ensures pass { IfOk result (λ t. IsLatchPassWith t.0 t.1 (opening_view (opening count) seats calls count)) }
    {
        let (cell, pass) = Cell::new(alloc, LatchState::new(count), seats, calls)?;
        Ok((Latch { cell }, pass))
    }

    /// Takes `n` from the counter, which is part of the share, and gives the position.
    pub fn count_down<R: Wait>(&self, rt: &R, pass: &mut LatchPass, n: u32) -> u32
        requires pass { IsLatchPass self.now pass.old }
        requires left { 1 ≤ pass.old.left }
        requires share { n ≤ pass.old.share }
        ensures idle { IsLatchPass self.now pass.new }
        ensures left { pass.new.left + 1 ≡ pass.old.left }
        ensures share { pass.new.share + n ≡ pass.old.share }
        ensures made { LatchMakes self.now pass.old pass.new (change pass.old.number ops.CountDown (pos n) (pos 0) replies.Ok) result }
    {
        let (_, at) = self.cell.wait_change(rt, pass, Op::CountDown, n as i64, 0);
        at
    }

    /// Waits until the counter is 0, and gives the stamp.
    pub fn wait<R: Wait>(&self, rt: &R, pass: &mut LatchPass) -> u32
        requires { IsLatchPass self.now pass.old }
        ensures idle { IsLatchPass self.now pass.new }
        ensures same { (pass.new.left ≡ pass.old.left) × (pass.new.share ≡ pass.old.share) }
        ensures seen { LatchLooks self.now pass.old pass.new (look_of pass.old.number ops.Wait (pos 0) (pos 0) replies.Ok result) }
    {
        let (_, at) = self.cell.wait_look(rt, pass, Op::Wait, 0, 0);
        at
    }

    /// Whether the counter is 0, and the stamp of the look.
    pub fn try_wait<R: Wait>(&self, rt: &R, pass: &mut LatchPass) -> (bool, u32)
        requires { IsLatchPass self.now pass.old }
        ensures idle { IsLatchPass self.now pass.new }
        ensures same { (pass.new.left ≡ pass.old.left) × (pass.new.share ≡ pass.old.share) }
        ensures seen { LatchLooks self.now pass.old pass.new (look_of pass.old.number ops.TryWait (pos 0) (pos 0) (if result.0 then replies.True else replies.False) result.1) }
    {
        match self.cell.look(rt, pass, Op::TryWait, 0, 0) {
            Some((reply, at)) => (reply == Reply::True, at),
            None => unreachable!(),
        }
    }

    /// Takes 1 from the counter, which is part of the share, and waits until the counter is 0. Gives the
    /// position and the stamp.
    pub fn arrive_and_wait<R: Wait>(&self, rt: &R, pass: &mut LatchPass) -> (u32, u32)
        requires pass { IsLatchPass self.now pass.old }
        requires left { 1 ≤ pass.old.left }
        requires share { 1 ≤ pass.old.share }
        ensures idle { IsLatchPass self.now pass.new }
        ensures left { pass.new.left + 1 ≡ pass.old.left }
        ensures share { pass.new.share + 1 ≡ pass.old.share }
        ensures made { (v : View latch.Latch) → IsLatchPassWith self.now pass.old v → (u w : View latch.Latch) × IsLatchPassWith self.now pass.new w × Makes latching v u (change pass.old.number ops.CountDown (pos 1) (pos 0) replies.Ok) result.0 × Looks latching u w (look_of pass.old.number ops.Wait (pos 0) (pos 0) replies.Ok result.1) }
    {
        let position = self.count_down(rt, pass, 1);
        let stamp = self.wait(rt, pass);
        (position, stamp)
    }

    /// Moves `n` of the share of `from` to `to`, which then has seen what both had seen.
    pub fn give(&self, from: &mut LatchPass, to: &mut LatchPass, n: u32)
        requires from { IsLatchPass self.now from.old }
        requires to { IsLatchPass self.now to.old }
        requires share { n ≤ from.old.share }
        ensures from { (v : View latch.Latch) → IsLatchPassWith self.now from.old v → IsLatchPassWith self.now from.new (less_share v n) }
        ensures to { (v w : View latch.Latch) → IsLatchPassWith self.now from.old v → IsLatchPassWith self.now to.old w → IsLatchPassWith self.now to.new (given w v n) }
    {
        self.cell.give(from, to, n);
    }

    /// Splits a new pass off the first one, with `calls` of its changes and the next number. Its share
    /// is 0.
    pub fn split(&self, first: &mut LatchPass, calls: u32) -> LatchPass
        requires pass { IsLatchPass self.now first.old }
        requires first { first.old.number.0 ≡ 0 }
        requires seats { first.old.splits + 1 < latch_seats self.now }
        requires calls { calls ≤ first.old.left }
        ensures first { (v : View latch.Latch) → IsLatchPassWith self.now first.old v → IsLatchPassWith self.now first.new (split_left v calls) }
        ensures second { (v : View latch.Latch) → IsLatchPassWith self.now first.old v → IsLatchPassWith self.now result (split_right v calls) }
    {
        self.cell.split(first, calls)
    }

    /// Takes another pass in: the pass gets what it has left, its share and what it has seen.
    pub fn join(&self, pass: &mut LatchPass, other: LatchPass)
        requires pass { IsLatchPass self.now pass.old }
        requires other { IsLatchPass self.now other }
        ensures { (v w : View latch.Latch) → IsLatchPassWith self.now pass.old v → IsLatchPassWith self.now other w → IsLatchPassWith self.now pass.new (both_of v w) }
    {
        self.cell.join(pass, other);
    }

    /// Lets `to` see what `from` has seen.
    pub fn meet(&self, from: &mut LatchPass, to: &mut LatchPass)
        requires from { IsLatchPass self.now from.old }
        requires to { IsLatchPass self.now to.old }
        ensures from { (v : View latch.Latch) → IsLatchPassWith self.now from.old v → IsLatchPassWith self.now from.new v }
        ensures to { (v w : View latch.Latch) → IsLatchPassWith self.now from.old v → IsLatchPassWith self.now to.old w → IsLatchPassWith self.now to.new (having_met w v) }
    {
        self.cell.meet(from, to);
    }
}
