//! Latches [thread.latch.class].
ghost use Rattle.std.specs.Prelude.{◌≡◌, ◌≤◌, ℕ, false, IfOk, refl};
ghost use Rattle.std.proofs.Common.{sym, ◌∙◌};
ghost use Rattle.cx_machine.specs.Machine as all;
ghost use Rattle.cx_sync.specs.Sync.{IsLatchPassWith};
ghost use Rattle.cx_machine.specs.Latch.{opening};
ghost use Rattle.cx_turn.proofs.Histories.{head_is};
ghost use Rattle.cx_cell.specs.Cells.{cell_start};
ghost use Rattle.cx_sync.specs.Kinds.{kept as kept_state};
ghost use Rattle.cx_kinds.specs.Seats.{KnowsSeat};
ghost use Rattle.cx_kinds.specs.Sights.{IsNew};
ghost use Rattle.cx_items.specs.Memory.{nothing};
ghost use Rattle.cx_asks.specs.Asks.{asks_latch};

use crate::seat::{Seat, seated};
use crate::shared::{Pooled, Shared};
use cx_asks::Ask;
use cx_machine::{LatchMachine, Op};
use cx_names::{NoMemory, PASS_CHANGES, Reply, ThreadNo};
use cx_sync::{Latch, LatchPass};
use cx_turn::Either;
use std::alloc::Global;
use std::sync::Wait;

/// A latch with this counter for so many threads, and main's seat at it, whose share is the whole counter.
pub(crate) fn falling(alloc: Global, count: u32, threads: u32) -> Result<Seat<Latch>, NoMemory>
    requires counter { count ≤ 65535 }
    requires threads { (1 ≤ threads) × (threads ≤ 64) }
    ensures { IfOk result (λ s. IsNew threads (all.Latch (opening count)) count (KnowsSeat IsLatchPassWith (λ k. k.share) (λ x. cell_start kept_state x.cell) all.Latch s)) }
{
    let calls = PASS_CHANGES * threads;
    let (latch, token) = Latch::new(alloc, count, threads, calls)?;
    let seat = seated(alloc, latch, token)?;
    Ok(seat)
}

impl Shared for Latch {
    type M = LatchMachine;

    type Token = LatchPass;

    ghost knows = { λ x k v. IsLatchPassWith x k v };

    ghost number = { λ k. k.number };

    ghost share = { λ k. k.share };

    ghost start = { λ x. cell_start kept_state x.cell };

    ghost kept = { λ k. nothing };

    ghost begun = { λ k. false };

    ghost serves = { λ h share ask. asks_latch share ask.change ask.look ask.a ask.b };

    ghost as_any = { all.Latch };

    fn number(token: &LatchPass) -> ThreadNo {
        token.number()
    }

    fn act<R: Wait>(&self, rt: &R, token: &mut LatchPass, ask: Ask) -> Option<Either> {
        match (ask.change, ask.look, ask.a, ask.b) {
            (Some(Op::CountDown), None, n, 0) => {
                let Ok(count) = u32::try_from(n) else {
                    return None;
                };
                if token.left() == 0 || token.share() < count {
                    return None;
                }
                Some(Either::Made(Reply::Ok, self.count_down(rt, token, count)))
            }
            (None, Some(Op::Wait), 0, 0) => Some(Either::Seen(Reply::Ok, self.wait(rt, token))),
            (None, Some(Op::TryWait), 0, 0) => {
                let (is_zero, at) = self.try_wait(rt, token);
                let reply = if is_zero { Reply::True } else { Reply::False };
                Some(Either::Seen(reply, at))
            }
            _ => None,
        }
    }

    fn split(&self, first: &mut LatchPass, calls: u32) -> LatchPass {
        self.split(first, calls)
    }

    fn join(&self, token: &mut LatchPass, other: LatchPass) {
        self.join(token, other);
    }

    fn meet(&self, from: &mut LatchPass, to: &mut LatchPass) {
        self.meet(from, to);
    }

    fn give_up<R: Wait>(&self, rt: &R, token: &mut LatchPass) {
        let _ = rt;
        let _ = token.left();
    }

    fn is_completing(&self, token: &LatchPass) -> bool {
        let _ = token;
        false
    }

    ghost right = { λ x k v h. record { numbered = h.numbered; shared = h.counted.part; started = h.started; counts = h.counts; only = λ w i. head_is w v (sym i.views ∙ h.views); known = h.known } };

    ghost kind = { record { steps = λ m e. refl; shown = λ m l. refl; picked = λ m e p. p; pooled = λ m. refl; owed = λ m. refl; given = λ m e. refl; taken = λ m e. refl; lived = λ m id. refl } };
}

impl Pooled for Latch {
    fn share(token: &LatchPass) -> u32 {
        token.share()
    }

    fn give(&self, from: &mut LatchPass, to: &mut LatchPass, n: u32) {
        self.give(from, to, n);
    }
}
