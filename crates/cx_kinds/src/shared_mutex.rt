//! Shared mutexes [thread.sharedmutex.class].
ghost use Rattle.std.specs.Prelude.{◌≡◌, ◌≤◌, ℕ, true, false, IfOk, IfSome, IfNone, IsSome, refl};
ghost use Rattle.std.proofs.Common.{sym, ◌∙◌};
ghost use Rattle.cx_machine.specs.Machine as all;
ghost use Rattle.cx_machine.specs.Shared as machine;
ghost use Rattle.cx_machine.specs.States.{shared_of};
ghost use Rattle.cx_turn.specs.declared.view.View.{View};
ghost use Rattle.cx_turn.proofs.Histories.{head_is};
ghost use Rattle.cx_cell.specs.Cells.{cell_start};
ghost use Rattle.cx_asks.specs.Asks.{asks_shared};
ghost use Rattle.cx_kinds.specs.declared.shared_mutex.Owned.TheVariants as owns;
ghost use Rattle.cx_shared_mutex.specs.Kinds.{sharing};
ghost use Rattle.cx_kinds.specs.Acts.{DoesAsk, IsKept};
ghost use Rattle.cx_kinds.specs.Seats.{KnowsSeat};
ghost use Rattle.cx_kinds.specs.Sights.{IsNew};
ghost use Rattle.cx_kinds.specs.Holding.{kept_shared, owns_nothing};
ghost use Rattle.cx_kinds.specs.Tokens.{IsSharedToken};

use crate::seat::{Seat, seated};
use crate::shared::Shared;
use cx_asks::Ask;
use cx_machine::{Op, SharedMachine};
use cx_names::{NoMemory, PASS_CHANGES, Reply, ThreadNo};
use cx_shared_mutex::{Hold, Shared as Sharing, SharedMutex, SharedPass, Tried};
use cx_turn::Either;
use std::alloc::Global;
use std::mem;
use std::sync::Wait;

/// How a thread owns a shared mutex [thread.sharedmutex.requirements].
#[derive(Drop)]
pub enum Owned {
    /// Not at all.
    Nothing,
    /// Alone, as the writer.
    Alone(Hold),
    /// Along with other readers.
    Along(Sharing),
}

impl Owned {
    // Takes the writer's hold out, if it is one.
    fn take_alone(&mut self) -> Option<Hold>
        ensures some { IfSome result (λ h. (self.old ≡ owns.Alone h) × (self.new ≡ owns.Nothing)) }
        ensures none { IfNone result ((self.new ≡ self.old) × ((kept_shared self.old).levels ≡ 0)) }
    {
        match mem::replace(self, Owned::Nothing) {
            Owned::Alone(hold) => Some(hold),
            other => {
                *self = other;
                None
            }
        }
    }

    // Takes the reader's hold out, if it is one.
    fn take_along(&mut self) -> Option<Sharing>
        ensures some { IfSome result (λ h. (self.old ≡ owns.Along h) × (self.new ≡ owns.Nothing)) }
        ensures none { IfNone result ((self.new ≡ self.old) × ((kept_shared self.old).reads ≡ false)) }
    {
        match mem::replace(self, Owned::Nothing) {
            Owned::Along(sharing) => Some(sharing),
            other => {
                *self = other;
                None
            }
        }
    }

    // Whether it is not owned at all.
    fn is_nothing(&self) -> bool
        ensures nothing { result ≡ true → self.now ≡ owns.Nothing }
        ensures other { result ≡ false → owns_nothing self.now ≡ false }
    {
        match self {
            Owned::Nothing => true,
            _ => false,
        }
    }
}

/// What a thread has of a shared mutex.
#[derive(Drop)]
pub struct SharedToken {
    /// The thread's pass.
    pub pass: SharedPass,
    /// How the thread owns the mutex.
    pub owned: Owned,
}

/// A shared mutex for so many threads, and main's seat at it.
pub(crate) fn sharable(alloc: Global, threads: u32) -> Result<Seat<SharedMutex>, NoMemory>
    requires threads { (1 ≤ threads) × (threads ≤ 64) }
    ensures new { IfOk result (λ s. IsNew threads (all.Shared machine.opening) 0 (KnowsSeat IsSharedToken (λ k. k.pass.share) (λ x. cell_start shared_of x.cell) all.Shared s)) }
    ensures free { IfOk result (λ s. s.token.owned ≡ owns.Nothing) }
{
    let calls = PASS_CHANGES * threads;
    let (mutex, pass) = SharedMutex::new(alloc, threads, calls)?;
    let token = SharedToken {
        pass,
        owned: Owned::Nothing,
    };
    let seat = seated(alloc, mutex, token)?;
    Ok(seat)
}

// Takes the mutex as is asked, for a thread that doesn't own it.
fn take<R: Wait>(rt: &R, mutex: &SharedMutex, token: &mut SharedToken, ask: Ask) -> Option<Either>
    requires token { (v : View machine.Shared) × IsSharedToken mutex.now token.old v }
    requires left { 1 ≤ token.old.pass.left }
    requires nothing { token.old.owned ≡ owns.Nothing }
    ensures did { (v : View machine.Shared) → IsSharedToken mutex.now token.old v → (w : View machine.Shared) × IsSharedToken mutex.now token.new w × DoesAsk sharing token.old.pass.number ask v w result }
    ensures kept { IsKept ask (kept_shared token.old.owned) result (kept_shared token.new.owned) }
    ensures served { asks_shared 0 false ask.change ask.look ask.a ask.b → IsSome result }
{
    match (ask.change, ask.look, ask.a, ask.b) {
        (Some(Op::Lock), None, 0, 0) => {
            let (hold, at) = mutex.lock(rt, &mut token.pass);
            token.owned = Owned::Alone(hold);
            Some(Either::Made(Reply::Ok, at))
        }
        (Some(Op::TryLock), Some(Op::TryLock), 0, 0) => {
            match mutex.try_lock(rt, &mut token.pass) {
                Tried::Got(hold, at) => {
                    token.owned = Owned::Alone(hold);
                    Some(Either::Made(Reply::True, at))
                }
                Tried::Not(at) => Some(Either::Seen(Reply::False, at)),
            }
        }
        (Some(Op::LockShared), None, 0, 0) => {
            let (sharing, at) = mutex.lock_shared(rt, &mut token.pass);
            token.owned = Owned::Along(sharing);
            Some(Either::Made(Reply::Ok, at))
        }
        (Some(Op::TryLockShared), Some(Op::TryLockShared), 0, 0) => {
            match mutex.try_lock_shared(rt, &mut token.pass) {
                Tried::Got(sharing, at) => {
                    token.owned = Owned::Along(sharing);
                    Some(Either::Made(Reply::True, at))
                }
                Tried::Not(at) => Some(Either::Seen(Reply::False, at)),
            }
        }
        _ => None,
    }
}

// Gives the mutex back as is asked, for a thread that owns it.
fn give_back<R: Wait>(
    rt: &R,
    mutex: &SharedMutex,
    token: &mut SharedToken,
    ask: Ask,
) -> Option<Either>
    requires token { (v : View machine.Shared) × IsSharedToken mutex.now token.old v }
    requires left { 1 ≤ token.old.pass.left }
    ensures did { (v : View machine.Shared) → IsSharedToken mutex.now token.old v → (w : View machine.Shared) × IsSharedToken mutex.now token.new w × DoesAsk sharing token.old.pass.number ask v w result }
    ensures kept { IsKept ask (kept_shared token.old.owned) result (kept_shared token.new.owned) }
    ensures served { owns_nothing token.old.owned ≡ false → asks_shared (kept_shared token.old.owned).levels (kept_shared token.old.owned).reads ask.change ask.look ask.a ask.b → IsSome result }
{
    match (ask.change, ask.look, ask.a, ask.b) {
        (Some(Op::Unlock), None, 0, 0) => {
            let hold = token.owned.take_alone()?;
            Some(Either::Made(Reply::Ok, mutex.unlock(rt, &mut token.pass, hold)))
        }
        (Some(Op::UnlockShared), None, 0, 0) => {
            let hold = token.owned.take_along()?;
            let at = mutex.unlock_shared(rt, &mut token.pass, hold);
            Some(Either::Made(Reply::Ok, at))
        }
        _ => None,
    }
}

impl Shared for SharedMutex {
    type M = SharedMachine;

    type Token = SharedToken;

    ghost knows = { λ x k v. IsSharedToken x k v };

    ghost number = { λ k. k.pass.number };

    ghost share = { λ k. k.pass.share };

    ghost start = { λ x. cell_start shared_of x.cell };

    ghost kept = { λ k. kept_shared k.owned };

    ghost begun = { λ k. false };

    ghost serves = { λ h share ask. asks_shared h.levels h.reads ask.change ask.look ask.a ask.b };

    ghost as_any = { all.Shared };

    fn number(token: &SharedToken) -> ThreadNo {
        token.pass.number()
    }

    fn act<R: Wait>(&self, rt: &R, token: &mut SharedToken, ask: Ask) -> Option<Either> {
        if token.pass.left() == 0 {
            return None;
        }
        if token.owned.is_nothing() {
            return take(rt, self, token, ask);
        }
        give_back(rt, self, token, ask)
    }

    fn split(&self, first: &mut SharedToken, calls: u32) -> SharedToken {
        SharedToken {
            pass: self.split(&mut first.pass, calls),
            owned: Owned::Nothing,
        }
    }

    fn join(&self, token: &mut SharedToken, other: SharedToken) {
        self.join(&mut token.pass, other.pass);
    }

    fn meet(&self, from: &mut SharedToken, to: &mut SharedToken) {
        self.meet(&mut from.pass, &mut to.pass);
    }

    fn give_up<R: Wait>(&self, rt: &R, token: &mut SharedToken) {
        if token.pass.left() == 0 {
            return;
        }
        match mem::replace(&mut token.owned, Owned::Nothing) {
            Owned::Nothing => {}
            Owned::Alone(hold) => {
                self.unlock(rt, &mut token.pass, hold);
            }
            Owned::Along(sharing) => {
                self.unlock_shared(rt, &mut token.pass, sharing);
            }
        }
    }

    fn is_completing(&self, token: &SharedToken) -> bool {
        let _ = token;
        false
    }

    ghost right = { λ x k v h. record { numbered = h.pass.numbered; shared = h.pass.counted.part; started = h.pass.started; counts = h.pass.counts; only = λ w i. head_is w v (sym i.pass.views ∙ h.pass.views); known = h.pass.known } };

    ghost kind = { record { steps = λ m e. refl; shown = λ m l. refl; picked = λ m e p. p; pooled = λ m. refl; owed = λ m. refl; given = λ m e. refl; taken = λ m e. refl; lived = λ m id. refl } };
}
