//! Deregistrations.
ghost use Rattle.std.specs.Prelude.{◌≡◌, ◌≤◌, ◌<◌, ◌∷◌, [], ℕ, Some, IsSome};
ghost use Rattle.cx_machine.specs.declared.kind.Op.TheVariants as ops;
ghost use Rattle.cx_machine.specs.Stop.{Stop};
ghost use Rattle.cx_turn.specs.declared.view.View.{View};
ghost use Rattle.cx_turn.specs.Views.{Has};
ghost use Rattle.cx_stop.specs.Acts.{act, Changed};
ghost use Rattle.cx_stop.specs.Stops.{IsInner, IsInnerWith, IsStopPass, IsCallback, StopDid};
ghost use Rattle.cx_stop.specs.Puts.{IsBack};
ghost use Rattle.cx_stop.specs.Removals.{GivesBack, IsOutcome, reply_of, place_of};

use crate::action::Action;
use crate::pass::{StopCallback, StopPass};
use crate::state::StopState;
use crate::steps::Back;
use cx_machine::StopMachine;
use cx_names::Reply;
use cx_turn::Pass;
use std::hint;
use std::sync::Wait;

/// What a deregistration found, and its position.
#[derive(Drop, Debug, PartialEq, Eq)]
pub enum Deregistered<C> {
    /// The callback hadn't begun, and never will: its value.
    Removed(C, u32),
    /// It had finished.
    Ran(u32),
    /// It runs on the calling thread.
    Inside(u32),
}

// The outcome of a deregistration.
pub(crate) fn outcome<C: Action>(back: Back<C>) -> Deregistered<C>
    requires { (id : ℕ) × IsBack C.suits id back }
    ensures came { IsOutcome back.reply back.at result }
    ensures value { (id : ℕ) → IsBack C.suits id back → GivesBack C.suits id result }
{
    let Back { reply, at, value } = back;
    match reply {
        Reply::Removed => match value {
            Some(value) => Deregistered::Removed(value, at),
            None => unreachable!(),
        },
        Reply::Ran => Deregistered::Ran(at),
        Reply::Inside => Deregistered::Inside(at),
        _ => unreachable!(),
    }
}

impl<C: Action> StopState<C> {
    // Sleeps until the caller is woken, if it waits among the joiners.
    fn rest<R: Wait>(&self, rt: &R, pass: &mut Pass<StopMachine>, waits: bool)
        requires { IsInner self.now pass.old }
        ensures { (v : View Stop) → IsInnerWith self.now pass.old v → IsInnerWith self.now pass.new v }
    {
        if waits {
            self.turn.sleep(rt, pass);
        } else {
            hint::spin_loop();
        }
    }

    // Deregisters the callback as soon as no other thread runs it.
    pub(crate) fn take_back<R: Wait>(
        &self,
        rt: &R,
        pass: &mut Pass<StopMachine>,
        id: u32,
    ) -> Back<C>
        requires pass { IsInner self.now pass.old }
        requires left { 1 ≤ pass.old.left }
        requires holds { (v : View Stop) → IsInnerWith self.now pass.old v → Has v.holds (Some id) }
        ensures back { (v : View Stop) → IsInnerWith self.now pass.old v → (w : View Stop) × IsInnerWith self.now pass.new w × Changed v w (act v.number ops.Deregister id result.reply) result.at }
        ensures value { IsBack C.suits id result }
    {
        for _ in rt.forever() {
            match self.try_back(rt, pass, id) {
                Ok(back) => return back,
                Err(waits) => self.rest(rt, pass, waits),
            }
        }
        unreachable!()
    }

    /// Deregisters the callback [stopcallback.cons], and gives its value back where it hadn't begun. Where
    /// another thread runs it, waits until it has finished. Nothing is charged: the registration has paid.
    pub fn deregister<R: Wait>(
        &self,
        rt: &R,
        pass: &mut StopPass,
        cb: StopCallback,
    ) -> Deregistered<C>
        requires pass { IsStopPass self.now pass.old }
        requires callback { IsCallback self.now cb }
        ensures idle { IsStopPass self.now pass.new }
        ensures left { pass.new.pass.left ≡ pass.old.pass.left }
        ensures tag { pass.new.next_tag ≡ pass.old.next_tag }
        ensures did { StopDid self.now pass.old pass.new ops.Deregister cb.id (reply_of result) (place_of result) }
        ensures value { GivesBack C.suits cb.id result }
    {
        let StopCallback { id, note } = cb;
        self.turn.take_in(&mut pass.pass, note);
        outcome(self.take_back(rt, &mut pass.pass, id))
    }
}
