//! The single acts on a barrier, of which its calls are made.
ghost use Rattle.std.specs.Prelude.{◌≡◌, ◌+◌, ◌<◌, ◌≤◌, ◌^◌, ℕ, pos, true, false, Some, None, IsSome, IfSome, IfOk, IfErr};
ghost use Rattle.cx_names.specs.declared.Reply.TheVariants as replies;
ghost use Rattle.cx_machine.specs.declared.kind.Op.TheVariants as ops;
ghost use Rattle.cx_machine.specs.Meaning.{change, look_of};
ghost use Rattle.cx_barrier.specs.Barriers.{IsBarrierPass, IsCompleting, IsArrival, BarrierMakes, BarrierLooks, Counts};

use crate::barrier::Barrier;
use crate::pass::BarrierPass;
use cx_machine::Op;
use cx_names::{Reply, ThreadNo};
use cx_turn::Either;
use std::sync::Wait;

/// An arrival, by its phase, for whose completion its caller may wait [thread.barrier.class].
#[derive(Drop, Debug, PartialEq, Eq)]
pub struct Arrival {
    pub(crate) phase: u32,
}

impl Arrival {
    /// The phase of the arrival.
    pub fn phase(&self) -> u32
        ensures { result ≡ self.now.phase }
    {
        self.phase
    }
}

/// A phase whose last arrival its thread was, and which it is to complete.
#[derive(Drop, Debug, PartialEq, Eq)]
pub struct Completing {
    pub(crate) by: ThreadNo,
}

/// An arrival, at this position, with the phase to be completed where it was the last one.
#[derive(Drop, Debug, PartialEq, Eq)]
pub struct Counted {
    pub at: u32,
    pub completing: Option<Completing>,
}

/// An arrival was refused: after the first `at` changes a phase was to be completed, or fewer arrivals
/// than these were expected.
#[derive(Clone, Copy, Debug, PartialEq, Eq)]
pub struct OverExpected {
    pub at: u32,
}

// The phase that the reply to an arrival names.
fn phase_in(reply: Reply) -> u32
    requires { (n : ℕ) × (reply ≡ replies.Number (pos n)) × (n < 2 ^ 32) }
    ensures { reply ≡ replies.Number (pos result) }
{
    match reply {
        Reply::Number(phase) => phase as u32,
        _ => unreachable!(),
    }
}

// The phase that this thread is to complete, where its arrival was the last one.
fn completing_if(last: bool, by: ThreadNo) -> Option<Completing>
    ensures some { last ≡ true → result ≡ Some (record { by = by }) }
    ensures none { last ≡ false → result ≡ None }
{
    if last { Some(Completing { by }) } else { None }
}

// Notes the phase of the arrival that the pass has made, and whether it was the last one.
fn note_arrival(pass: &mut BarrierPass, reply: Reply, at: u32, last: bool) -> (u32, Counted)
    requires { (n : ℕ) × (reply ≡ replies.Number (pos n)) × (n < 2 ^ 32) }
    ensures same { pass.new.pass ≡ pass.old.pass }
    ensures phase { pass.new.phase ≡ Some result.0 }
    ensures reply { reply ≡ replies.Number (pos result.0) }
    ensures at { result.1.at ≡ at }
    ensures last { last ≡ true → result.1.completing ≡ Some (record { by = pass.old.pass.number }) }
    ensures early { last ≡ false → result.1.completing ≡ None }
{
    let phase = phase_in(reply);
    pass.phase = Some(phase);
    let completing = completing_if(last, pass.number());
    (phase, Counted { at, completing })
}

impl Barrier {
    // Arrives with this word and this number, or sees that the arrival isn't expected. Gives the phase.
    fn arrive_as<R: Wait>(
        &self,
        rt: &R,
        pass: &mut BarrierPass,
        op: Op,
        n: i64,
    ) -> Result<(u32, Counted), OverExpected>
        requires pass { IsBarrierPass self.now pass.old }
        requires left { 1 ≤ pass.old.pass.left }
        requires word { IsArrival op n }
        ensures idle { IsBarrierPass self.now pass.new }
        ensures left { IfOk result (λ _. pass.new.pass.left + 1 ≡ pass.old.pass.left) }
        ensures unspent { IfErr result (λ _. pass.new.pass.left ≡ pass.old.pass.left) }
        ensures counted { IfOk result (λ t. Counts self.now pass.old pass.new (change pass.old.pass.number op n (pos 0) (replies.Number (pos t.0))) t.1) }
        ensures phase { IfOk result (λ t. pass.new.phase ≡ Some t.0) }
        ensures over { IfErr result (λ o. BarrierLooks self.now pass.old pass.new (look_of pass.old.pass.number op n (pos 0) replies.OverExpected o.at)) }
        ensures same { IfErr result (λ _. pass.new.phase ≡ pass.old.phase) }
    {
        match self
            .cell
            .try_either_then(rt, &mut pass.pass, op, op, n, 0, Op::Complete)
        {
            Some((done, last)) => match done {
                Either::Made(reply, at) => Ok(note_arrival(pass, reply, at, last)),
                Either::Seen(_, at) => Err(OverExpected { at }),
            },
            None => unreachable!(),
        }
    }

    /// Arrives `n` times, and gives the arrival. OverExpected exactly where a phase is to be completed, or
    /// fewer arrivals are expected, and then nothing changes.
    pub fn arrive_only<R: Wait>(
        &self,
        rt: &R,
        pass: &mut BarrierPass,
        n: u32,
    ) -> Result<(Arrival, Counted), OverExpected>
        requires pass { IsBarrierPass self.now pass.old }
        requires left { 1 ≤ pass.old.pass.left }
        requires some { 1 ≤ n }
        ensures idle { IsBarrierPass self.now pass.new }
        ensures left { IfOk result (λ _. pass.new.pass.left + 1 ≡ pass.old.pass.left) }
        ensures unspent { IfErr result (λ _. pass.new.pass.left ≡ pass.old.pass.left) }
        ensures counted { IfOk result (λ t. Counts self.now pass.old pass.new (change pass.old.pass.number ops.Arrive (pos n) (pos 0) (replies.Number (pos t.0.phase))) t.1) }
        ensures phase { IfOk result (λ t. pass.new.phase ≡ Some t.0.phase) }
        ensures over { IfErr result (λ o. BarrierLooks self.now pass.old pass.new (look_of pass.old.pass.number ops.Arrive (pos n) (pos 0) replies.OverExpected o.at)) }
        ensures same { IfErr result (λ _. pass.new.phase ≡ pass.old.phase) }
    {
        match self.arrive_as(rt, pass, Op::Arrive, n as i64) {
            Ok((phase, counted)) => Ok((Arrival { phase }, counted)),
            Err(over) => Err(over),
        }
    }

    /// Arrives once, and lowers by one how many arrivals the later phases expect. The phase is the pass's
    /// then. OverExpected as for `arrive_only`.
    pub fn drop_only<R: Wait>(
        &self,
        rt: &R,
        pass: &mut BarrierPass,
    ) -> Result<Counted, OverExpected>
        requires pass { IsBarrierPass self.now pass.old }
        requires left { 1 ≤ pass.old.pass.left }
        ensures idle { IsBarrierPass self.now pass.new }
        ensures left { IfOk result (λ _. pass.new.pass.left + 1 ≡ pass.old.pass.left) }
        ensures unspent { IfErr result (λ _. pass.new.pass.left ≡ pass.old.pass.left) }
        ensures counted { IfOk result (λ c. IfSome pass.new.phase (λ p. Counts self.now pass.old pass.new (change pass.old.pass.number ops.Drop (pos 0) (pos 0) (replies.Number (pos p))) c)) }
        ensures phase { IfOk result (λ _. IsSome pass.new.phase) }
        ensures over { IfErr result (λ o. BarrierLooks self.now pass.old pass.new (look_of pass.old.pass.number ops.Drop (pos 0) (pos 0) replies.OverExpected o.at)) }
        ensures same { IfErr result (λ _. pass.new.phase ≡ pass.old.phase) }
    {
        match self.arrive_as(rt, pass, Op::Drop, 0) {
            Ok((_, counted)) => Ok(counted),
            Err(over) => Err(over),
        }
    }

    /// Completes the phase, and gives the position. The next phase begins.
    pub fn complete_phase<R: Wait>(
        &self,
        rt: &R,
        pass: &mut BarrierPass,
        completing: Completing,
    ) -> u32
        requires pass { IsBarrierPass self.now pass.old }
        requires left { 1 ≤ pass.old.pass.left }
        requires completing { IsCompleting self.now pass.old completing }
        ensures idle { IsBarrierPass self.now pass.new }
        ensures left { pass.new.pass.left + 1 ≡ pass.old.pass.left }
        ensures phase { pass.new.phase ≡ pass.old.phase }
        ensures made { BarrierMakes self.now pass.old pass.new (change pass.old.pass.number ops.Complete (pos 0) (pos 0) replies.Ok) result }
    {
        let _ = completing;
        match self.cell.try_change(rt, &mut pass.pass, Op::Complete, 0, 0) {
            Some((_, at)) => at,
            None => unreachable!(),
        }
    }

    /// Waits until this phase is completed, and gives the stamp.
    pub fn wait_past<R: Wait>(&self, rt: &R, pass: &mut BarrierPass, phase: u32) -> u32
        requires { IsBarrierPass self.now pass.old }
        ensures idle { IsBarrierPass self.now pass.new }
        ensures same { (pass.new.pass.left ≡ pass.old.pass.left) × (pass.new.phase ≡ pass.old.phase) }
        ensures seen { BarrierLooks self.now pass.old pass.new (look_of pass.old.pass.number ops.Wait (pos phase) (pos 0) replies.Ok result) }
    {
        let (_, at) = self
            .cell
            .wait_look(rt, &mut pass.pass, Op::Wait, phase as i64, 0);
        at
    }
}
