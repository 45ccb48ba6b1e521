//! Registrations.
ghost use Rattle.std.specs.Prelude.{◌≡◌, ◌≤◌, ◌<◌, ◌+◌, ◌*◌, ℕ, Some, IfOk, IfErr};
ghost use Rattle.cx_machine.specs.Stop.{Stop};
ghost use Rattle.cx_turn.specs.declared.view.View.{View};
ghost use Rattle.cx_turn.specs.Acts.{Sees};
ghost use Rattle.cx_stop.specs.Registers.{Registers, register_cost};
ghost use Rattle.cx_turn.specs.Views.{note_left, note_right};
ghost use Rattle.cx_stop.specs.Stops.{StopId, IsStopPassWith, IsStopPass, IsCallbackWith, HoldsId, stop_id};

use crate::action::Action;
use crate::acts::id_of;
use crate::pass::{StopCallback, StopPass};
use crate::runs::Runs;
use crate::state::StopState;
use crate::steps::{Begun, Put};
use cx_names::NoMemory;
use std::sync::Wait;

/// What came of a registration.
#[derive(Drop)]
pub enum Registered<C> {
    /// The callback is registered, from this position on.
    Queued(StopCallback, u32),
    /// The stop was requested before, so the caller ran it, from the first position to the second.
    RanNow(u32, u32),
    /// No stop was requested and there is no source, seen at this stamp: the callback is given back.
    NeverStops(C, u32),
}

impl<C: Action> StopState<C> {
    // The registration of the callback with this tag, whose ID the pass holds.
    fn callback_of(&self, pass: &mut StopPass, id: u32) -> StopCallback
        requires pass { IsStopPass self.now pass.old }
        requires left { 1 ≤ pass.old.pass.left }
        requires holds { HoldsId self.now pass.old id }
        ensures idle { IsStopPass self.now pass.new }
        ensures left { pass.new.pass.left + 1 ≡ pass.old.pass.left }
        ensures tag { pass.new.next_tag ≡ pass.old.next_tag }
        ensures rest { (v : View Stop) → IsStopPassWith self.now pass.old v → IsStopPassWith self.now pass.new (note_left v 1 0 (Some id)) }
        ensures note { (v : View Stop) → IsStopPassWith self.now pass.old v → IsCallbackWith self.now result (note_right v 1 0 (Some id)) }
        ensures id { result.id ≡ id }
    {
        let note = self.turn.note(&mut pass.pass, 0, 1, Some(id));
        StopCallback { id, note }
    }

    /// Registers a callback [stopcallback.cons] with a tag that is not below the pass's next one. Where the
    /// stop was requested before, the runner runs it at once, with the turn free. Its ID is the thread's
    /// number times 4,096, plus the tag. After `NoMemory` nothing is registered.
    pub fn register<R: Wait, U: Runs<C>>(
        &self,
        rt: &R,
        pass: &mut StopPass,
        tag: u32,
        cb: C,
        runner: &mut U,
    ) -> Result<Registered<C>, (NoMemory, C)>
        requires pass { (v : View Stop) × IsStopPassWith self.now pass.old v × U.serves runner.old (stop_id self.now) v.number }
        requires tag { (pass.old.next_tag ≤ tag) × (tag < 4096) }
        requires suits { C.suits cb (pass.old.pass.number.0 * 4096 + tag) }
        requires left { 4 ≤ pass.old.pass.left }
        ensures idle { IsStopPass self.now pass.new }
        ensures left { IfOk result (λ r. pass.new.pass.left + register_cost r ≡ pass.old.pass.left) }
        ensures next { IfOk result (λ r. pass.new.next_tag ≡ tag + 1) }
        ensures serves { (i : StopId) (n : ℕ) → U.serves runner.old i n → U.serves runner.new i n }
        ensures registered { IfOk result (λ r. (v : View Stop) → IsStopPassWith self.now pass.old v → (w : View Stop) × IsStopPassWith self.now pass.new w × Registers (stop_id self.now) U.ran U.since runner.old runner.new v w (v.number * 4096 + tag) cb r) }
        ensures same { IfErr result (λ r. (pass.new.pass.left ≡ pass.old.pass.left) × (pass.new.next_tag ≡ pass.old.next_tag) × (runner.new ≡ runner.old) × (r.1 ≡ cb)) }
        ensures refused { IfErr result (λ _. (v : View Stop) → IsStopPassWith self.now pass.old v → (w : View Stop) × IsStopPassWith self.now pass.new w × Sees v w) }
    {
        let id = id_of(pass.number(), tag);
        match self.register_only(rt, pass, tag, cb) {
            Ok(put) => match put {
                Put::Queued(at) => Ok(Registered::Queued(self.callback_of(pass, id), at)),
                Put::Now(at, value) => {
                    let begun = Begun { id, at, value };
                    Ok(Registered::RanNow(at, self.run_one(rt, pass, runner, begun)))
                }
                Put::Never(at, value) => Ok(Registered::NeverStops(value, at)),
            },
            Err(e) => Err(e),
        }
    }
}
