//! The single acts on a stop state, of which its calls are made.
ghost use Rattle.std.specs.Prelude.{◌≡◌, ◌≤◌, ◌<◌, ◌+◌, ◌*◌, ℕ, IfOk, IfErr};
ghost use Rattle.cx_names.specs.declared.Reply.TheVariants as replies;
ghost use Rattle.cx_machine.specs.declared.kind.Op.TheVariants as ops;
ghost use Rattle.cx_machine.specs.Stop.{Stop};
ghost use Rattle.cx_turn.specs.declared.view.View.{View};
ghost use Rattle.cx_turn.specs.Acts.{Sees};
ghost use Rattle.cx_stop.specs.Puts.{Puts, IsUnder, put_cost};
ghost use Rattle.cx_stop.specs.Removals.{GivesBack, reply_of, place_of};
ghost use Rattle.cx_stop.specs.Runs.{Begins, Finishes};
ghost use Rattle.cx_stop.specs.Stops.{IsStopPass, IsStopPassWith, IsSource, HoldsId, HasRequested, RunsId, StopMakes, StopLooks};

use crate::action::Action;
use crate::deregister::{Deregistered, outcome};
use crate::pass::{StopPass, StopSource};
use crate::state::StopState;
use crate::steps::{Begun, Put};
use cx_machine::Op;
use cx_names::{NoMemory, ThreadNo};
use std::sync::Wait;

// The ID of a thread's callback.
pub(crate) fn id_of(by: ThreadNo, tag: u32) -> u32
    requires { (by.0 < 256) × (tag < 4096) }
    ensures { result ≡ by.0 * 4096 + tag }
{
    by.0 * 4096 + tag
}

impl<C: Action> StopState<C> {
    /// Requests the stop [stopsource.mem], and gives the position. Err with the stamp exactly where it was
    /// requested before, and then nothing changes. Who requested it is to begin the callbacks.
    pub fn request_only<R: Wait>(
        &self,
        rt: &R,
        pass: &mut StopPass,
        src: &StopSource,
    ) -> Result<u32, u32>
        requires pass { IsStopPass self.now pass.old }
        requires source { IsSource self.now src.now × (1 ≤ src.now.note.share) }
        requires left { 1 ≤ pass.old.pass.left }
        ensures idle { IsStopPass self.now pass.new }
        ensures left { IfOk result (λ _. pass.new.pass.left + 1 ≡ pass.old.pass.left) }
        ensures unspent { IfErr result (λ _. pass.new.pass.left ≡ pass.old.pass.left) }
        ensures tag { pass.new.next_tag ≡ pass.old.next_tag }
        ensures made { IfOk result (λ n. StopMakes self.now pass.old pass.new ops.Request 0 replies.Ok n) }
        ensures requester { IfOk result (λ _. HasRequested self.now pass.new) }
        ensures already { IfErr result (λ k. StopLooks self.now pass.old pass.new ops.Already 0 replies.Ok k) }
    {
        let _ = src;
        match self.request(rt, &mut pass.pass) {
            Ok(at) => Ok(at),
            Err(at) => Err(at),
        }
    }

    /// Begins the callback that was registered first, and gives its value. Err with the stamp exactly where
    /// none is registered. The caller's thread made the request; it then runs the callback.
    pub fn begin_next<R: Wait>(&self, rt: &R, pass: &mut StopPass) -> Result<Begun<C>, u32>
        requires pass { IsStopPass self.now pass.old }
        requires requester { HasRequested self.now pass.old }
        ensures idle { IsStopPass self.now pass.new }
        ensures left { pass.new.pass.left ≡ pass.old.pass.left }
        ensures tag { pass.new.next_tag ≡ pass.old.next_tag }
        ensures requester { HasRequested self.now pass.new }
        ensures begun { IfOk result (λ b. StopMakes self.now pass.old pass.new ops.Begin b.id replies.Ok b.at) }
        ensures running { IfOk result (λ b. RunsId self.now pass.new b.id) }
        ensures value { IfOk result (λ b. C.suits b.value b.id) }
        ensures drained { IfErr result (λ k. StopLooks self.now pass.old pass.new ops.Drained 0 replies.Ok k) }
    {
        match self.begin_first(rt, &mut pass.pass) {
            Ok(begun) => Ok(begun),
            Err(at) => Err(at),
        }
    }

    /// Finishes a callback that the pass's thread runs, wakes who waits for that, and gives the position.
    pub fn finish<R: Wait>(&self, rt: &R, pass: &mut StopPass, id: u32) -> u32
        requires pass { IsStopPass self.now pass.old }
        requires running { RunsId self.now pass.old id }
        ensures idle { IsStopPass self.now pass.new }
        ensures left { pass.new.pass.left ≡ pass.old.pass.left }
        ensures tag { pass.new.next_tag ≡ pass.old.next_tag }
        ensures made { StopMakes self.now pass.old pass.new ops.Finish id replies.Ok result }
    {
        self.make(rt, &mut pass.pass, Op::Finish, id, true)
    }

    /// Registers a callback [stopcallback.cons] with a tag that is not below the pass's next one. The pass
    /// then holds its ID: the thread's number times 4,096, plus the tag. Where the stop was requested before
    /// the caller is to run the callback; where none can be requested any more nothing is registered, nor
    /// after `NoMemory`.
    pub fn register_only<R: Wait>(
        &self,
        rt: &R,
        pass: &mut StopPass,
        tag: u32,
        cb: C,
    ) -> Result<Put<C>, (NoMemory, C)>
        requires pass { IsStopPass self.now pass.old }
        requires tag { (pass.old.next_tag ≤ tag) × (tag < 4096) }
        requires suits { C.suits cb (pass.old.pass.number.0 * 4096 + tag) }
        requires left { 3 ≤ pass.old.pass.left }
        ensures idle { IsStopPass self.now pass.new }
        ensures left { IfOk result (λ p. pass.new.pass.left + put_cost p ≡ pass.old.pass.left) }
        ensures next { IfOk result (λ _. pass.new.next_tag ≡ tag + 1) }
        ensures put { IfOk result (λ p. (v : View Stop) → IsStopPassWith self.now pass.old v → (w : View Stop) × IsStopPassWith self.now pass.new w × Puts v w (v.number * 4096 + tag) cb p) }
        ensures under { IfOk result (λ p. IsUnder self.now pass.new (pass.old.pass.number.0 * 4096 + tag) p) }
        ensures same { IfErr result (λ r. (pass.new.pass.left ≡ pass.old.pass.left) × (pass.new.next_tag ≡ pass.old.next_tag) × (r.1 ≡ cb)) }
        ensures refused { IfErr result (λ _. (v : View Stop) → IsStopPassWith self.now pass.old v → (w : View Stop) × IsStopPassWith self.now pass.new w × Sees v w) }
    {
        let id = id_of(pass.number(), tag);
        match self.put(rt, &mut pass.pass, id, cb) {
            Ok(put) => {
                pass.next_tag = tag + 1;
                Ok(put)
            }
            Err(e) => Err(e),
        }
    }

    /// Deregisters a callback whose ID the pass holds [stopcallback.cons]. Where another thread runs it,
    /// waits until it has finished.
    pub fn deregister_only<R: Wait>(&self, rt: &R, pass: &mut StopPass, id: u32) -> Deregistered<C>
        requires pass { IsStopPass self.now pass.old }
        requires left { 1 ≤ pass.old.pass.left }
        requires holds { HoldsId self.now pass.old id }
        ensures idle { IsStopPass self.now pass.new }
        ensures left { pass.new.pass.left + 1 ≡ pass.old.pass.left }
        ensures tag { pass.new.next_tag ≡ pass.old.next_tag }
        ensures made { StopMakes self.now pass.old pass.new ops.Deregister id (reply_of result) (place_of result) }
        ensures value { GivesBack C.suits id result }
    {
        outcome(self.take_back(rt, &mut pass.pass, id))
    }
}
