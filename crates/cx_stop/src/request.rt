//! Requests, and the callbacks that they run.
ghost use Rattle.std.specs.Prelude.{◌≡◌, ◌≤◌, ◌<◌, ◌+◌, ◌^◌, ◌∷◌, [], ℕ, List};
ghost use Rattle.cx_names.specs.declared.Reply.TheVariants as replies;
ghost use Rattle.cx_machine.specs.declared.kind.Op.TheVariants as ops;
ghost use Rattle.cx_machine.specs.Stop.{Stop};
ghost use Rattle.cx_turn.specs.declared.view.View.{View};
ghost use Rattle.cx_turn.specs.Acts.{Looks};
ghost use Rattle.cx_stop.specs.Kinds.{stopping};
ghost use Rattle.cx_stop.specs.Acts.{seen_at};
ghost use Rattle.cx_stop.specs.Runs.{Tells, Begins, RunsOn};
ghost use Rattle.cx_stop.specs.Stops.{StopId, IsStopPassWith, IsStopPass, IsSource, HasRequested, stop_id};
ghost use Rattle.cx_stop.specs.Requests.{Requests, request_cost};

use crate::action::Action;
use crate::pass::{StopPass, StopSource};
use crate::runs::Runs;
use crate::state::StopState;
use crate::steps::Begun;
use cx_machine::Op;
use std::sync::Wait;

/// What came of a request.
#[derive(Clone, Copy, Debug, PartialEq, Eq)]
pub enum Requested {
    /// It was made at this position, and its callbacks were run: after so many changes none was registered.
    Made(u32, u32),
    /// It was found to be made before, after so many changes.
    Already(u32),
}

impl<C: Action> StopState<C> {
    // Runs a callback that was begun, and finishes it.
    pub(crate) fn run_one<R: Wait, U: Runs<C>>(
        &self,
        rt: &R,
        pass: &mut StopPass,
        runner: &mut U,
        begun: Begun<C>,
    ) -> u32
        requires pass { (u : View Stop) × (v : View Stop) × IsStopPassWith self.now pass.old v × Begins u v begun.id begun.at × U.serves runner.old (stop_id self.now) v.number }
        requires low { begun.id < 2 ^ 32 }
        requires suits { C.suits begun.value begun.id }
        ensures left { pass.new.pass.left ≡ pass.old.pass.left }
        ensures pass { (u v : View Stop) (paid : ℕ) → IsStopPassWith self.now pass.old v → Begins u v begun.id begun.at → v.left + paid ≡ u.left → (w : View Stop) × IsStopPassWith self.now pass.new w × RunsOn u w paid ((begun.id, begun.at) ∷ ((begun.id, result) ∷ [])) × U.since runner.old u runner.new w }
        ensures tag { pass.new.next_tag ≡ pass.old.next_tag }
        ensures ran { Tells (U.ran runner.old) ((begun.id, begun.at) ∷ ((begun.id, result) ∷ [])) (U.ran runner.new) }
        ensures serves { (i : StopId) (n : ℕ) → U.serves runner.old i n → U.serves runner.new i n }
    {
        let Begun { id, at, value } = begun;
        runner.run(rt, pass, id, at, value);
        let finish = self.make(rt, &mut pass.pass, Op::Finish, id, true);
        runner.finished(id, finish);
        finish
    }

    // Runs the callbacks that are registered, one after the other, until none is, and gives that stamp.
    fn run_all<R: Wait, U: Runs<C>>(&self, rt: &R, pass: &mut StopPass, runner: &mut U) -> u32
        requires pass { (v : View Stop) × IsStopPassWith self.now pass.old v × U.serves runner.old (stop_id self.now) v.number }
        requires requester { HasRequested self.now pass.old }
        ensures left { pass.new.pass.left ≡ pass.old.pass.left }
        ensures pass { (v : View Stop) → IsStopPassWith self.now pass.old v → (x w : View Stop) × (acts : List (ℕ × ℕ)) × IsStopPassWith self.now pass.new w × RunsOn v x 0 acts × U.since runner.old v runner.new x × Tells (U.ran runner.old) acts (U.ran runner.new) × Looks stopping x w (seen_at v.number ops.Drained 0 replies.Ok result) }
        ensures tag { pass.new.next_tag ≡ pass.old.next_tag }
        ensures serves { (i : StopId) (n : ℕ) → U.serves runner.old i n → U.serves runner.new i n }
    {
        for _ in rt.forever() {
            match self.begin_next(rt, pass) {
                Ok(begun) => {
                    self.run_one(rt, pass, runner, begun);
                }
                Err(at) => return at,
            }
        }
        unreachable!()
    }

    /// Requests a stop [stopsource.mem], and runs the callbacks that are registered, each with the turn
    /// free, until none is registered. Waits as long as they do.
    pub fn request_stop<R: Wait, U: Runs<C>>(
        &self,
        rt: &R,
        pass: &mut StopPass,
        src: &StopSource,
        runner: &mut U,
    ) -> Requested
        requires pass { (v : View Stop) × IsStopPassWith self.now pass.old v × U.serves runner.old (stop_id self.now) v.number }
        requires source { IsSource self.now src.now × (1 ≤ src.now.note.share) }
        requires left { 1 ≤ pass.old.pass.left }
        ensures idle { IsStopPass self.now pass.new }
        ensures left { pass.new.pass.left + request_cost result ≡ pass.old.pass.left }
        ensures tag { pass.new.next_tag ≡ pass.old.next_tag }
        ensures serves { (i : StopId) (n : ℕ) → U.serves runner.old i n → U.serves runner.new i n }
        ensures requested { (v : View Stop) → IsStopPassWith self.now pass.old v → (w : View Stop) × IsStopPassWith self.now pass.new w × Requests U.ran U.since runner.old runner.new v w result }
    {
        match self.request_only(rt, pass, src) {
            Ok(at) => Requested::Made(at, self.run_all(rt, pass, runner)),
            Err(at) => Requested::Already(at),
        }
    }
}
