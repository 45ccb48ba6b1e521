//! The calls on a barrier [thread.barrier.class].
ghost use Rattle.std.specs.Prelude.{◌≡◌, ◌+◌, ◌≤◌, pos, Some, is_some, IsSome, IfSome, IfOk, IfErr};
ghost use Rattle.cx_names.specs.declared.Reply.TheVariants as replies;
ghost use Rattle.cx_machine.specs.declared.kind.Op.TheVariants as ops;
ghost use Rattle.cx_machine.specs.Meaning.{change, look_of};
ghost use Rattle.cx_barrier.specs.Barriers.{IsBarrierPass, IsDueBy, BarrierLooks};
ghost use Rattle.cx_barrier.specs.Arriving.{Ends, Arrives, ArrivesAndWaits, ending_cost, cost_of};
ghost use Rattle.cx_barrier.specs.Completions.{Completed};

use crate::acts::{Arrival, Completing, Counted, OverExpected};
use crate::barrier::Barrier;
use crate::completion::Completion;
use crate::pass::BarrierPass;
use std::sync::Wait;

/// An arrival, at this position, and the position at which its phase was completed where it was the last
/// one.
#[derive(Clone, Copy, Debug, PartialEq, Eq)]
pub struct Arrived {
    pub at: u32,
    pub completed: Option<u32>,
}

impl Barrier {
    // Calls the completion and completes the phase, where there is one that the pass's thread is to
    // complete.
    fn end_phase<R: Wait, C: Completion>(
        &self,
        rt: &R,
        pass: &mut BarrierPass,
        completing: Option<Completing>,
        done: &mut C,
    ) -> Option<u32>
        requires pass { IsBarrierPass self.now pass.old }
        requires left { 1 ≤ pass.old.pass.left }
        requires completing { IsDueBy self.now pass.old completing }
        ensures idle { IsBarrierPass self.now pass.new }
        ensures left { pass.new.pass.left + ending_cost result ≡ pass.old.pass.left }
        ensures phase { pass.new.phase ≡ pass.old.phase }
        ensures last { is_some result ≡ is_some completing }
        ensures ended { Ends self.now pass.old pass.new result }
        ensures completed { Completed C.runs C.since result done.old done.new }
    {
        match completing {
            Some(completing) => {
                done.complete(rt, pass.number());
                Some(self.complete_phase(rt, pass, completing))
            }
            None => None,
        }
    }

    /// Arrives `n` times, and gives the arrival. Where it is the last one of its phase, calls the
    /// completion and then completes the phase. OverExpected exactly where a phase is to be completed, or
    /// fewer arrivals are expected: nothing changes then.
    pub fn arrive<R: Wait, C: Completion>(
        &self,
        rt: &R,
        pass: &mut BarrierPass,
        n: u32,
        done: &mut C,
    ) -> Result<(Arrival, Arrived), OverExpected>
        requires pass { IsBarrierPass self.now pass.old }
        requires left { 2 ≤ pass.old.pass.left }
        requires some { 1 ≤ n }
        ensures idle { IsBarrierPass self.now pass.new }
        ensures left { IfOk result (λ t. pass.new.pass.left + cost_of t.1 ≡ pass.old.pass.left) }
        ensures unspent { IfErr result (λ _. pass.new.pass.left ≡ pass.old.pass.left) }
        ensures arrived { IfOk result (λ t. Arrives self.now pass.old pass.new (change pass.old.pass.number ops.Arrive (pos n) (pos 0) (replies.Number (pos t.0.phase))) t.1) }
        ensures phase { IfOk result (λ t. pass.new.phase ≡ Some t.0.phase) }
        ensures over { IfErr result (λ o. BarrierLooks self.now pass.old pass.new (look_of pass.old.pass.number ops.Arrive (pos n) (pos 0) replies.OverExpected o.at)) }
        ensures completed { IfOk result (λ t. Completed C.runs C.since t.1.completed done.old done.new) }
        ensures untouched { IfErr result (λ _. (done.new ≡ done.old) × (pass.new.phase ≡ pass.old.phase)) }
    {
        match self.arrive_only(rt, pass, n) {
            Ok((arrival, counted)) => {
                let Counted { at, completing } = counted;
                let completed = self.end_phase(rt, pass, completing, done);
                Ok((arrival, Arrived { at, completed }))
            }
            Err(over) => Err(over),
        }
    }

    /// Arrives once, lowers by one how many arrivals the later phases expect, and is else as `arrive`.
    pub fn arrive_and_drop<R: Wait, C: Completion>(
        &self,
        rt: &R,
        pass: &mut BarrierPass,
        done: &mut C,
    ) -> Result<Arrived, OverExpected>
        requires pass { IsBarrierPass self.now pass.old }
        requires left { 2 ≤ pass.old.pass.left }
        ensures idle { IsBarrierPass self.now pass.new }
        ensures left { IfOk result (λ a. pass.new.pass.left + cost_of a ≡ pass.old.pass.left) }
        ensures unspent { IfErr result (λ _. pass.new.pass.left ≡ pass.old.pass.left) }
        ensures arrived { IfOk result (λ a. IfSome pass.new.phase (λ p. Arrives self.now pass.old pass.new (change pass.old.pass.number ops.Drop (pos 0) (pos 0) (replies.Number (pos p))) a)) }
        ensures phase { IfOk result (λ _. IsSome pass.new.phase) }
        ensures over { IfErr result (λ o. BarrierLooks self.now pass.old pass.new (look_of pass.old.pass.number ops.Drop (pos 0) (pos 0) replies.OverExpected o.at)) }
        ensures completed { IfOk result (λ a. Completed C.runs C.since a.completed done.old done.new) }
        ensures untouched { IfErr result (λ _. (done.new ≡ done.old) × (pass.new.phase ≡ pass.old.phase)) }
    {
        match self.drop_only(rt, pass) {
            Ok(counted) => {
                let Counted { at, completing } = counted;
                let completed = self.end_phase(rt, pass, completing, done);
                Ok(Arrived { at, completed })
            }
            Err(over) => Err(over),
        }
    }

    /// Waits until the phase of the arrival is completed, and gives the stamp.
    pub fn wait<R: Wait>(&self, rt: &R, pass: &mut BarrierPass, arrival: Arrival) -> u32
        requires { IsBarrierPass self.now pass.old }
        ensures idle { IsBarrierPass self.now pass.new }
        ensures same { (pass.new.pass.left ≡ pass.old.pass.left) × (pass.new.phase ≡ pass.old.phase) }
        ensures seen { BarrierLooks self.now pass.old pass.new (look_of pass.old.pass.number ops.Wait (pos arrival.phase) (pos 0) replies.Ok result) }
    {
        self.wait_past(rt, pass, arrival.phase)
    }

    /// Arrives once as `arrive` does, and then waits until the phase is completed. Gives the stamp too.
    pub fn arrive_and_wait<R: Wait, C: Completion>(
        &self,
        rt: &R,
        pass: &mut BarrierPass,
        done: &mut C,
    ) -> Result<(Arrived, u32), OverExpected>
        requires pass { IsBarrierPass self.now pass.old }
        requires left { 2 ≤ pass.old.pass.left }
        ensures idle { IsBarrierPass self.now pass.new }
        ensures left { IfOk result (λ t. pass.new.pass.left + cost_of t.0 ≡ pass.old.pass.left) }
        ensures unspent { IfErr result (λ _. pass.new.pass.left ≡ pass.old.pass.left) }
        ensures arrived { IfOk result (λ t. IfSome pass.new.phase (λ p. ArrivesAndWaits self.now pass.old pass.new p t.0 t.1)) }
        ensures phase { IfOk result (λ _. IsSome pass.new.phase) }
        ensures over { IfErr result (λ o. BarrierLooks self.now pass.old pass.new (look_of pass.old.pass.number ops.Arrive (pos 1) (pos 0) replies.OverExpected o.at)) }
        ensures completed { IfOk result (λ t. Completed C.runs C.since t.0.completed done.old done.new) }
        ensures untouched { IfErr result (λ _. (done.new ≡ done.old) × (pass.new.phase ≡ pass.old.phase)) }
    {
        match self.arrive(rt, pass, 1, done) {
            Ok((arrival, arrived)) => Ok((arrived, self.wait(rt, pass, arrival))),
            Err(over) => Err(over),
        }
    }
}
