//! Plain mutexes [thread.mutex.class].
ghost use Rattle.std.specs.Prelude.{◌≡◌, ◌≤◌, ℕ, None, false, IfOk, refl};
ghost use Rattle.std.proofs.Common.{sym, ◌∙◌};
ghost use Rattle.cx_machine.specs.Machine as all;
ghost use Rattle.cx_machine.specs.Mutex.{opening};
ghost use Rattle.cx_turn.proofs.Histories.{head_is};
ghost use Rattle.cx_cell.specs.Cells.{cell_start};
ghost use Rattle.cx_mutex.specs.Kinds.{kept as kept_state};
ghost use Rattle.cx_asks.specs.Asks.{asks_mutex};
ghost use Rattle.cx_kinds.specs.Seats.{KnowsSeat};
ghost use Rattle.cx_kinds.specs.Sights.{IsNew};
ghost use Rattle.cx_kinds.specs.Holding.{kept_by};
ghost use Rattle.cx_kinds.specs.Tokens.{IsMutexToken};

use crate::seat::{Seat, seated};
use crate::shared::Shared;
use cx_asks::Ask;
use cx_machine::{MutexMachine, Op};
use cx_mutex::{Hold, Mutex, MutexPass, Tried};
use cx_names::{NoMemory, PASS_CHANGES, Reply, ThreadNo};
use cx_turn::Either;
use std::alloc::Global;
use std::sync::Wait;

/// What a thread has of a plain mutex [thread.mutex.requirements].
#[derive(Drop)]
pub struct MutexToken {
    /// The thread's pass.
    pub pass: MutexPass,
    /// Its hold, where it owns the mutex.
    pub hold: Option<Hold>,
}

/// A plain mutex with so many numbers for so many threads, and main's seat at it.
pub(crate) fn plain(alloc: Global, numbers: u8, threads: u32) -> Result<Seat<Mutex>, NoMemory>
    requires numbers { numbers ≤ 8 }
    requires threads { (1 ≤ threads) × (threads ≤ 64) }
    ensures new { IfOk result (λ s. IsNew threads (all.Mutex (opening false numbers)) 0 (KnowsSeat IsMutexToken (λ k. k.pass.share) (λ x. cell_start kept_state x.cell) all.Mutex s)) }
    ensures free { IfOk result (λ s. s.token.hold ≡ None) }
{
    let calls = PASS_CHANGES * threads;
    let (mutex, pass) = Mutex::new(alloc, numbers, threads, calls)?;
    let token = MutexToken { pass, hold: None };
    let seat = seated(alloc, mutex, token)?;
    Ok(seat)
}

impl Shared for Mutex {
    type M = MutexMachine;

    type Token = MutexToken;

    ghost knows = { λ x k v. IsMutexToken x k v };

    ghost number = { λ k. k.pass.number };

    ghost share = { λ k. k.pass.share };

    ghost start = { λ x. cell_start kept_state x.cell };

    ghost kept = { λ k. kept_by k.hold };

    ghost begun = { λ k. false };

    ghost serves = { λ h share ask. asks_mutex h.levels ask.change ask.look ask.a ask.b };

    ghost as_any = { all.Mutex };

    fn number(token: &MutexToken) -> ThreadNo {
        token.pass.number()
    }

    fn act<R: Wait>(&self, rt: &R, token: &mut MutexToken, ask: Ask) -> Option<Either> {
        if token.pass.left() == 0 {
            return None;
        }
        match (ask.change, ask.look, ask.a, ask.b) {
            (Some(Op::Lock), None, 0, 0) => {
                if token.hold.is_some() {
                    return None;
                }
                let (hold, at) = self.lock(rt, &mut token.pass);
                token.hold = Some(hold);
                Some(Either::Made(Reply::Ok, at))
            }
            (Some(Op::TryLock), Some(Op::TryLock), 0, 0) => {
                if token.hold.is_some() {
                    return None;
                }
                match self.try_lock(rt, &mut token.pass) {
                    Tried::Got(hold, at) => {
                        token.hold = Some(hold);
                        Some(Either::Made(Reply::True, at))
                    }
                    Tried::Not(at) => Some(Either::Seen(Reply::False, at)),
                }
            }
            (Some(Op::Unlock), None, 0, 0) => match token.hold.take() {
                Some(hold) => Some(Either::Made(Reply::Ok, self.unlock(rt, &mut token.pass, hold))),
                None => None,
            },
            _ => None,
        }
    }

    fn split(&self, first: &mut MutexToken, calls: u32) -> MutexToken {
        MutexToken {
            pass: self.split(&mut first.pass, calls),
            hold: None,
        }
    }

    fn join(&self, token: &mut MutexToken, other: MutexToken) {
        self.join(&mut token.pass, other.pass);
    }

    fn meet(&self, from: &mut MutexToken, to: &mut MutexToken) {
        self.meet(&mut from.pass, &mut to.pass);
    }

    fn give_up<R: Wait>(&self, rt: &R, token: &mut MutexToken) {
        if token.pass.left() == 0 {
            return;
        }
        if let Some(hold) = token.hold.take() {
            self.unlock(rt, &mut token.pass, hold);
        }
    }

    fn is_completing(&self, token: &MutexToken) -> bool {
        let _ = token;
        false
    }

    ghost right = { λ x k v h. record { numbered = h.pass.numbered; shared = h.pass.counted.part; started = h.pass.started; counts = h.pass.counts; only = λ w i. head_is w v (sym i.pass.views ∙ h.pass.views); known = h.pass.known } };

    ghost kind = { record { steps = λ m e. refl; shown = λ m l. refl; picked = λ m e p. p; pooled = λ m. refl; owed = λ m. refl; given = λ m e. refl; taken = λ m e. refl; lived = λ m id. refl } };
}
