//! Semaphores [thread.sema.cnt].
ghost use Rattle.std.specs.Prelude.{◌≡◌, ◌≤◌, ℕ, false, IfOk, refl};
ghost use Rattle.std.proofs.Common.{sym, ◌∙◌};
ghost use Rattle.cx_machine.specs.Machine as all;
ghost use Rattle.cx_sync.specs.Sync.{IsSemaphorePassWith};
ghost use Rattle.cx_machine.specs.Semaphore.{opening};
ghost use Rattle.cx_turn.proofs.Histories.{head_is};
ghost use Rattle.cx_cell.specs.Cells.{cell_start};
ghost use Rattle.cx_sync.specs.Kinds.{kept as kept_state};
ghost use Rattle.cx_kinds.specs.Seats.{KnowsSeat};
ghost use Rattle.cx_kinds.specs.Sights.{IsNew};
ghost use Rattle.cx_items.specs.Memory.{nothing};
ghost use Rattle.cx_asks.specs.Asks.{asks_semaphore};

use crate::seat::{Seat, seated};
use crate::shared::Shared;
use cx_asks::Ask;
use cx_machine::{Op, SemaphoreMachine};
use cx_names::{NoMemory, PASS_CHANGES, Reply, ThreadNo};
use cx_sync::{Over, Semaphore, SemaphorePass, Taking};
use cx_turn::Either;
use std::alloc::Global;
use std::sync::Wait;

/// A semaphore with this counter and this greatest value for so many threads, and main's seat at it.
pub(crate) fn counting(
    alloc: Global,
    count: u32,
    max: u32,
    threads: u32,
) -> Result<Seat<Semaphore>, NoMemory>
    requires counter { (count ≤ max) × (1 ≤ max) × (max ≤ 65535) }
    requires threads { (1 ≤ threads) × (threads ≤ 64) }
    ensures { IfOk result (λ s. IsNew threads (all.Semaphore (opening count max)) 0 (KnowsSeat IsSemaphorePassWith (λ k. k.share) (λ x. cell_start kept_state x.cell) all.Semaphore s)) }
{
    let calls = PASS_CHANGES * threads;
    let (semaphore, token) = Semaphore::new(alloc, count, max, threads, calls)?;
    let seat = seated(alloc, semaphore, token)?;
    Ok(seat)
}

impl Shared for Semaphore {
    type M = SemaphoreMachine;

    type Token = SemaphorePass;

    ghost knows = { λ x k v. IsSemaphorePassWith x k v };

    ghost number = { λ k. k.number };

    ghost share = { λ k. k.share };

    ghost start = { λ x. cell_start kept_state x.cell };

    ghost kept = { λ k. nothing };

    ghost begun = { λ k. false };

    ghost serves = { λ h share ask. asks_semaphore ask.change ask.look ask.a ask.b };

    ghost as_any = { all.Semaphore };

    fn number(token: &SemaphorePass) -> ThreadNo {
        token.number()
    }

    fn act<R: Wait>(&self, rt: &R, token: &mut SemaphorePass, ask: Ask) -> Option<Either> {
        if token.left() == 0 {
            return None;
        }
        match (ask.change, ask.look, ask.a, ask.b) {
            (Some(Op::Release), Some(Op::Release), n, 0) => {
                let Ok(count) = u32::try_from(n) else {
                    return None;
                };
                Some(match self.release(rt, token, count) {
                    Ok(at) => Either::Made(Reply::Ok, at),
                    Err(Over { at }) => Either::Seen(Reply::Over, at),
                })
            }
            (Some(Op::Acquire), None, 0, 0) => Some(Either::Made(
                Reply::Ok,
                self.acquire(rt, token),
            )),
            (Some(Op::TryAcquire), Some(Op::TryAcquire), 0, 0) => {
                Some(match self.try_acquire(rt, token) {
                    Taking::Taken(at) => Either::Made(Reply::True, at),
                    Taking::Zero(at) => Either::Seen(Reply::False, at),
                    Taking::Again { .. } => unreachable!(),
                })
            }
            _ => None,
        }
    }

    fn split(&self, first: &mut SemaphorePass, calls: u32) -> SemaphorePass {
        self.split(first, calls)
    }

    fn join(&self, token: &mut SemaphorePass, other: SemaphorePass) {
        self.join(token, other);
    }

    fn meet(&self, from: &mut SemaphorePass, to: &mut SemaphorePass) {
        self.meet(from, to);
    }

    fn give_up<R: Wait>(&self, rt: &R, token: &mut SemaphorePass) {
        let _ = rt;
        let _ = token.left();
    }

    fn is_completing(&self, token: &SemaphorePass) -> bool {
        let _ = token;
        false
    }

    ghost right = { λ x k v h. record { numbered = h.numbered; shared = h.counted.part; started = h.started; counts = h.counts; only = λ w i. head_is w v (sym i.views ∙ h.views); known = h.known } };

    ghost kind = { record { steps = λ m e. refl; shown = λ m l. refl; picked = λ m e p. p; pooled = λ m. refl; owed = λ m. refl; given = λ m e. refl; taken = λ m e. refl; lived = λ m id. refl } };
}
