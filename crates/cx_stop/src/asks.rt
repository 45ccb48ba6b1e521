//! Questions to a stop state [stopsource.mem].
ghost use Rattle.std.specs.Prelude.{◌≡◌};
ghost use Rattle.cx_machine.specs.declared.kind.Op.TheVariants as ops;
ghost use Rattle.cx_machine.specs.Values.{truth};
ghost use Rattle.cx_stop.specs.Stops.{IsStopPass, StopLooks};

use crate::action::Action;
use crate::pass::StopPass;
use crate::state::StopState;
use cx_machine::Op;
use cx_names::Reply;
use std::sync::Wait;

impl<C: Action> StopState<C> {
    /// Whether a stop was requested, and the stamp of the look.
    pub fn stop_requested<R: Wait>(&self, rt: &R, pass: &mut StopPass) -> (bool, u32)
        requires { IsStopPass self.now pass.old }
        ensures idle { IsStopPass self.now pass.new }
        ensures same { (pass.new.pass.left ≡ pass.old.pass.left) × (pass.new.next_tag ≡ pass.old.next_tag) }
        ensures seen { StopLooks self.now pass.old pass.new ops.StopRequested 0 (truth result.0) result.1 }
    {
        let (reply, at) = self.ask(rt, &mut pass.pass, Op::StopRequested);
        match reply {
            Reply::True => (true, at),
            _ => (false, at),
        }
    }

    /// Whether a stop was requested or may still be, and the stamp of the look.
    pub fn stop_possible<R: Wait>(&self, rt: &R, pass: &mut StopPass) -> (bool, u32)
        requires { IsStopPass self.now pass.old }
        ensures idle { IsStopPass self.now pass.new }
        ensures same { (pass.new.pass.left ≡ pass.old.pass.left) × (pass.new.next_tag ≡ pass.old.next_tag) }
        ensures seen { StopLooks self.now pass.old pass.new ops.StopPossible 0 (truth result.0) result.1 }
    {
        let (reply, at) = self.ask(rt, &mut pass.pass, Op::StopPossible);
        match reply {
            Reply::True => (true, at),
            _ => (false, at),
        }
    }
}
