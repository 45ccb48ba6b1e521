//! Tokens [stoptoken].
ghost use Rattle.std.specs.Prelude.{◌≡◌, Some, None, ⊤};
ghost use Rattle.cx_machine.specs.declared.kind.Op.TheVariants as ops;
ghost use Rattle.cx_stop.specs.Tokens.{IsTokenPass, TokenAnswers};

use crate::action::Action;
use crate::pass::StopPass;
use crate::state::StopState;
use std::alloc::AllocError;
use std::sync::Wait;

/// Refers to a stop state, or to none [stoptoken]. A question to it is one to its state.
pub struct StopToken<'a, C: Action> {
    state: Option<&'a StopState<C>>,
}

impl<'a, C: Action> Copy for StopToken<'a, C> {}

impl<'a, C: Action> Clone for StopToken<'a, C> {
    ghost is_clone = { λ x y. y ≡ x };

    ghost is_infallible = { λ _. ⊤ };

    fn clone(&self) -> Result<StopToken<'a, C>, AllocError> {
        Ok(*self)
    }
}

impl<C: Action> StopState<C> {
    /// A token that refers to the state [stopsource.mem].
    pub fn token(&self) -> StopToken<'_, C>
        ensures { result.state ≡ Some self.entry }
    {
        StopToken { state: Some(self) }
    }
}

impl<'a, C: Action> StopToken<'a, C> {
    /// A token that refers to no state [stoptoken.general].
    pub fn none() -> StopToken<'a, C>
        ensures { result.state ≡ None }
    {
        StopToken { state: None }
    }

    /// Whether a stop was requested [stoptoken.mem], and the stamp of the look. Without a state it answers
    /// no, makes no look, and the stamp is the length that the pass has seen last.
    pub fn stop_requested<R: Wait>(&self, rt: &R, pass: &mut StopPass) -> (bool, u32)
        requires { IsTokenPass self.now pass.old }
        ensures idle { IsTokenPass self.now pass.new }
        ensures answer { TokenAnswers self.now pass.old pass.new ops.StopRequested result.0 result.1 }
    {
        match self.state {
            Some(state) => state.stop_requested(rt, pass),
            None => (false, pass.len()),
        }
    }

    /// Whether a stop was requested or may still be [stoptoken.mem], and the stamp of the look. Without a
    /// state as `stop_requested`.
    pub fn stop_possible<R: Wait>(&self, rt: &R, pass: &mut StopPass) -> (bool, u32)
        requires { IsTokenPass self.now pass.old }
        ensures idle { IsTokenPass self.now pass.new }
        ensures answer { TokenAnswers self.now pass.old pass.new ops.StopPossible result.0 result.1 }
    {
        match self.state {
            Some(state) => state.stop_possible(rt, pass),
            None => (false, pass.len()),
        }
    }
}
