//! Barriers [thread.barrier.class].
ghost use Rattle.std.specs.Prelude.{◌≡◌, ◌+◌, ◌≤◌, ◌^◌, ◌<◌, ℕ, pos, Some, None, is_some, IfOk, refl};
ghost use Rattle.std.proofs.Common.{sym, ◌∙◌};
ghost use Rattle.cx_names.specs.declared.Reply.TheVariants as replies;
ghost use Rattle.cx_machine.specs.Machine as all;
ghost use Rattle.cx_machine.specs.Barrier as machine;
ghost use Rattle.cx_machine.specs.Meaning.{change, look_of};
ghost use Rattle.cx_machine.specs.declared.kind.Op.TheVariants as ops;
ghost use Rattle.cx_turn.specs.declared.view.View.{View};
ghost use Rattle.cx_turn.specs.Acts.{Makes, Looks, DoesEither};
ghost use Rattle.cx_turn.proofs.Histories.{head_is};
ghost use Rattle.cx_cell.specs.Cells.{cell_start};
ghost use Rattle.cx_barrier.specs.Kinds.{meeting, kept as kept_state};
ghost use Rattle.cx_items.specs.Memory.{nothing};
ghost use Rattle.cx_asks.specs.Asks.{asks_barrier};
ghost use Rattle.cx_kinds.specs.Seats.{KnowsSeat};
ghost use Rattle.cx_kinds.specs.Sights.{IsNew};
ghost use Rattle.cx_kinds.specs.Tokens.{IsBarrierToken};

use crate::seat::{Seat, seated};
use crate::shared::Shared;
use cx_asks::Ask;
use cx_barrier::{Barrier, BarrierPass, Completing};
use cx_machine::{BarrierMachine, Op};
use cx_names::{NoMemory, PASS_CHANGES, Reply, ThreadNo};
use cx_turn::Either;
use std::alloc::Global;
use std::sync::Wait;

/// What a thread has of a barrier.
#[derive(Drop)]
pub struct BarrierToken {
    /// The thread's pass.
    pub pass: BarrierPass,
    /// The phase that the thread is to complete, where its arrival was the last one.
    pub completing: Option<Completing>,
}

/// A barrier whose phases expect this many arrivals, for so many threads, and main's seat at it.
pub(crate) fn phased(alloc: Global, count: u32, threads: u32) -> Result<Seat<Barrier>, NoMemory>
    requires count { (1 ≤ count) × (count ≤ 4096) }
    requires threads { (1 ≤ threads) × (threads ≤ 64) }
    ensures { IfOk result (λ s. IsNew threads (all.Barrier (machine.opening count)) 0 (KnowsSeat IsBarrierToken (λ k. k.pass.pass.share) (λ x. cell_start kept_state x.cell) all.Barrier s)) }
{
    let calls = PASS_CHANGES * threads;
    let (barrier, pass) = Barrier::new(alloc, count, threads, calls)?;
    let token = BarrierToken {
        pass,
        completing: None,
    };
    let seat = seated(alloc, barrier, token)?;
    Ok(seat)
}

// The reply to an arrival in this phase.
fn reply_in(phase: u32) -> Reply
    ensures { result ≡ replies.Number (pos phase) }
{
    Reply::Number(phase as i64)
}

// Arrives so often, or sees that so many arrivals aren't expected.
fn arrive<R: Wait>(rt: &R, barrier: &Barrier, token: &mut BarrierToken, n: u32) -> Either
    requires token { (v : View machine.Barrier) × IsBarrierToken barrier.now token.old v }
    requires left { 1 ≤ token.old.pass.pass.left }
    requires some { 1 ≤ n }
    ensures did { (v : View machine.Barrier) → IsBarrierToken barrier.now token.old v → (w : View machine.Barrier) × IsBarrierToken barrier.now token.new w × DoesEither meeting token.old.pass.pass.number ops.Arrive ops.Arrive (pos n) (pos 0) v w result }
{
    match barrier.arrive_only(rt, &mut token.pass, n) {
        Ok((arrival, counted)) => {
            token.completing = counted.completing;
            Either::Made(reply_in(arrival.phase()), counted.at)
        }
        Err(over) => Either::Seen(Reply::OverExpected, over.at),
    }
}

// Arrives for the last time, or sees that no arrival is expected.
fn drop_out<R: Wait>(rt: &R, barrier: &Barrier, token: &mut BarrierToken) -> Either
    requires token { (v : View machine.Barrier) × IsBarrierToken barrier.now token.old v }
    requires left { 1 ≤ token.old.pass.pass.left }
    ensures did { (v : View machine.Barrier) → IsBarrierToken barrier.now token.old v → (w : View machine.Barrier) × IsBarrierToken barrier.now token.new w × DoesEither meeting token.old.pass.pass.number ops.Drop ops.Drop (pos 0) (pos 0) v w result }
{
    match barrier.drop_only(rt, &mut token.pass) {
        Ok(counted) => {
            token.completing = counted.completing;
            Either::Made(reply_in(token.pass.phase()), counted.at)
        }
        Err(over) => Either::Seen(Reply::OverExpected, over.at),
    }
}

// Completes the phase. Only the thread that is to complete it may: another waits for ever.
fn complete<R: Wait>(rt: &R, barrier: &Barrier, token: &mut BarrierToken) -> u32
    requires token { (v : View machine.Barrier) × IsBarrierToken barrier.now token.old v }
    requires left { 1 ≤ token.old.pass.pass.left }
    ensures did { (v : View machine.Barrier) → IsBarrierToken barrier.now token.old v → (w : View machine.Barrier) × IsBarrierToken barrier.now token.new w × Makes meeting v w (change token.old.pass.pass.number ops.Complete (pos 0) (pos 0) replies.Ok) result }
    ensures none { token.new.completing ≡ None }
{
    if let Some(completing) = token.completing.take() {
        return barrier.complete_phase(rt, &mut token.pass, completing);
    }
    for _ in rt.forever() {}
    unreachable!()
}

// Waits until the phase is completed; for ever where no phase has such a number.
fn wait_past<R: Wait>(rt: &R, barrier: &Barrier, token: &mut BarrierToken, phase: i64) -> u32
    requires token { (v : View machine.Barrier) × IsBarrierToken barrier.now token.old v }
    ensures did { (v : View machine.Barrier) → IsBarrierToken barrier.now token.old v → (w : View machine.Barrier) × IsBarrierToken barrier.now token.new w × Looks meeting v w (look_of token.old.pass.pass.number ops.Wait phase (pos 0) replies.Ok result) }
{
    if let Ok(phase) = u32::try_from(phase) {
        return barrier.wait_past(rt, &mut token.pass, phase);
    }
    for _ in rt.forever() {}
    unreachable!()
}

impl Shared for Barrier {
    type M = BarrierMachine;

    type Token = BarrierToken;

    ghost knows = { λ x k v. IsBarrierToken x k v };

    ghost number = { λ k. k.pass.pass.number };

    ghost share = { λ k. k.pass.pass.share };

    ghost start = { λ x. cell_start kept_state x.cell };

    ghost kept = { λ k. nothing };

    ghost begun = { λ k. is_some k.completing };

    ghost serves = { λ h share ask. asks_barrier ask.change ask.look ask.a ask.b };

    ghost as_any = { all.Barrier };

    fn number(token: &BarrierToken) -> ThreadNo {
        token.pass.number()
    }

    fn act<R: Wait>(&self, rt: &R, token: &mut BarrierToken, ask: Ask) -> Option<Either> {
        if token.pass.left() == 0 {
            return None;
        }
        match (ask.change, ask.look, ask.a, ask.b) {
            (Some(Op::Arrive), Some(Op::Arrive), n, 0) => {
                let Ok(n) = u32::try_from(n) else {
                    return None;
                };
                if n == 0 {
                    return None;
                }
                Some(arrive(rt, self, token, n))
            }
            (Some(Op::Drop), Some(Op::Drop), 0, 0) => Some(drop_out(rt, self, token)),
            (Some(Op::Complete), None, 0, 0) => {
                Some(Either::Made(Reply::Ok, complete(rt, self, token)))
            }
            (None, Some(Op::Wait), phase, 0) => {
                Some(Either::Seen(Reply::Ok, wait_past(rt, self, token, phase)))
            }
            _ => None,
        }
    }

    fn split(&self, first: &mut BarrierToken, calls: u32) -> BarrierToken {
        BarrierToken {
            pass: self.split(&mut first.pass, calls),
            completing: None,
        }
    }

    fn join(&self, token: &mut BarrierToken, other: BarrierToken) {
        self.join(&mut token.pass, other.pass);
    }

    fn meet(&self, from: &mut BarrierToken, to: &mut BarrierToken) {
        self.meet(&mut from.pass, &mut to.pass);
    }

    fn give_up<R: Wait>(&self, rt: &R, token: &mut BarrierToken) {
        if token.pass.left() == 0 {
            return;
        }
        if let Some(completing) = token.completing.take() {
            self.complete_phase(rt, &mut token.pass, completing);
        }
    }

    fn is_completing(&self, token: &BarrierToken) -> bool {
        token.completing.is_some()
    }

    ghost right = { λ x k v h. record { numbered = h.pass.pass.numbered; shared = h.pass.pass.counted.part; started = h.pass.pass.started; counts = h.pass.pass.counts; only = λ w i. head_is w v (sym i.pass.pass.views ∙ h.pass.pass.views); known = h.pass.pass.known } };

    ghost kind = { record { steps = λ m e. refl; shown = λ m l. refl; picked = λ m e p. p; pooled = λ m. refl; owed = λ m. refl; given = λ m e. refl; taken = λ m e. refl; lived = λ m id. refl } };
}
