//! Recursive mutexes [thread.mutex.recursive].
ghost use Rattle.std.specs.Prelude.{◌≡◌, ◌+◌, ◌≤◌, ℕ, true, false, pos, IfOk, IfSome, IfNone, refl};
ghost use Rattle.std.proofs.Common.{sym, ◌∙◌};
ghost use Rattle.cx_names.specs.declared.Reply.TheVariants as replies;
ghost use Rattle.cx_machine.specs.Machine as all;
ghost use Rattle.cx_machine.specs.Mutex as machine;
ghost use Rattle.cx_machine.specs.Meaning.{change};
ghost use Rattle.cx_machine.specs.declared.kind.Op.TheVariants as ops;
ghost use Rattle.cx_turn.specs.declared.view.View.{View};
ghost use Rattle.cx_turn.proofs.Histories.{head_is};
ghost use Rattle.cx_cell.specs.Cells.{cell_start};
ghost use Rattle.cx_turn.specs.Acts.{Makes, DoesEither};
ghost use Rattle.cx_mutex.specs.Kinds.{locking, kept as kept_state};
ghost use Rattle.cx_asks.specs.Asks.{asks_recursive};
ghost use Rattle.cx_kinds.specs.Seats.{KnowsSeat};
ghost use Rattle.cx_kinds.specs.Sights.{IsNew};
ghost use Rattle.cx_kinds.specs.Holding.{levelled};
ghost use Rattle.cx_kinds.specs.Tokens.{IsLevelToken, IsLevelled};

use crate::seat::{Seat, seated};
use crate::shared::Shared;
use cx_asks::Ask;
use cx_machine::{MutexMachine, Op};
use cx_mutex::{Levels, MutexPass, RecursiveMutex, Tried};
use cx_names::{NoMemory, PASS_CHANGES, Reply, ThreadNo};
use cx_turn::Either;
use std::alloc::Global;
use std::sync::Wait;

/// What a thread has of a recursive mutex [thread.mutex.recursive].
#[derive(Drop)]
pub struct LevelToken {
    /// The thread's pass.
    pub pass: MutexPass,
    /// Its levels, none where it doesn't own the mutex.
    pub levels: Levels,
}

/// A recursive mutex for so many threads, and main's seat at it.
pub(crate) fn recursive(alloc: Global, threads: u32) -> Result<Seat<RecursiveMutex>, NoMemory>
    requires threads { (1 ≤ threads) × (threads ≤ 64) }
    ensures new { IfOk result (λ s. IsNew threads (all.Mutex (machine.opening true 0)) 0 (KnowsSeat IsLevelToken (λ k. k.pass.share) (λ x. cell_start kept_state x.cell) all.Mutex s)) }
    ensures free { IfOk result (λ s. s.token.levels.count ≡ 0) }
{
    let calls = PASS_CHANGES * threads;
    let (mutex, pass) = RecursiveMutex::new(alloc, threads, calls)?;
    let levels = Levels::none(pass.number());
    let seat = seated(alloc, mutex, LevelToken { pass, levels })?;
    Ok(seat)
}

// Locks the mutex once more, or sees that the thread has the most levels.
fn lock<R: Wait>(rt: &R, mutex: &RecursiveMutex, token: &mut LevelToken) -> Either
    requires token { (v : View machine.Mutex) × IsLevelToken mutex.now token.old v }
    requires left { 1 ≤ token.old.pass.left }
    ensures did { (v : View machine.Mutex) → IsLevelToken mutex.now token.old v → (w : View machine.Mutex) × IsLevelToken mutex.now token.new w × DoesEither locking token.old.pass.number ops.Lock ops.Lock (pos 0) (pos 0) v w result }
    ensures kept { IsLevelled token.old.levels.count result token.new.levels.count }
{
    match mutex.lock(rt, &mut token.pass) {
        Ok((level, at)) => {
            token.levels.put(level);
            Either::Made(Reply::Ok, at)
        }
        Err(most) => Either::Seen(Reply::MaxLevels, most.at),
    }
}

// Locks the mutex once more if it may.
fn try_lock<R: Wait>(rt: &R, mutex: &RecursiveMutex, token: &mut LevelToken) -> Either
    requires token { (v : View machine.Mutex) × IsLevelToken mutex.now token.old v }
    requires left { 1 ≤ token.old.pass.left }
    ensures did { (v : View machine.Mutex) → IsLevelToken mutex.now token.old v → (w : View machine.Mutex) × IsLevelToken mutex.now token.new w × DoesEither locking token.old.pass.number ops.TryLock ops.TryLock (pos 0) (pos 0) v w result }
    ensures kept { IsLevelled token.old.levels.count result token.new.levels.count }
{
    match mutex.try_lock(rt, &mut token.pass) {
        Tried::Got(level, at) => {
            token.levels.put(level);
            Either::Made(Reply::True, at)
        }
        Tried::Not(at) => Either::Seen(Reply::False, at),
    }
}

// Gives a level back, where the thread has one.
fn unlock<R: Wait>(rt: &R, mutex: &RecursiveMutex, token: &mut LevelToken) -> Option<u32>
    requires token { (v : View machine.Mutex) × IsLevelToken mutex.now token.old v }
    requires left { 1 ≤ token.old.pass.left }
    ensures none { IfNone result ((token.old.levels.count ≡ 0) × (token.new ≡ token.old)) }
    ensures did { IfSome result (λ n. (v : View machine.Mutex) → IsLevelToken mutex.now token.old v → (w : View machine.Mutex) × IsLevelToken mutex.now token.new w × Makes locking v w (change token.old.pass.number ops.Unlock (pos 0) (pos 0) replies.Ok) n) }
    ensures kept { IfSome result (λ n. token.old.levels.count ≡ token.new.levels.count + 1) }
    ensures left { IfSome result (λ n. token.new.pass.left + 1 ≡ token.old.pass.left) }
{
    let level = token.levels.take()?;
    Some(mutex.unlock(rt, &mut token.pass, level))
}

impl Shared for RecursiveMutex {
    type M = MutexMachine;

    type Token = LevelToken;

    ghost knows = { λ x k v. IsLevelToken x k v };

    ghost number = { λ k. k.pass.number };

    ghost share = { λ k. k.pass.share };

    ghost start = { λ x. cell_start kept_state x.cell };

    ghost kept = { λ k. levelled k.levels.count };

    ghost begun = { λ k. false };

    ghost serves = { λ h share ask. asks_recursive h.levels ask.change ask.look ask.a ask.b };

    ghost as_any = { all.Mutex };

    fn number(token: &LevelToken) -> ThreadNo {
        token.pass.number()
    }

    fn act<R: Wait>(&self, rt: &R, token: &mut LevelToken, ask: Ask) -> Option<Either> {
        if token.pass.left() == 0 {
            return None;
        }
        match (ask.change, ask.look, ask.a, ask.b) {
            (Some(Op::Lock), Some(Op::Lock), 0, 0) => Some(lock(rt, self, token)),
            (Some(Op::TryLock), Some(Op::TryLock), 0, 0) => Some(try_lock(rt, self, token)),
            (Some(Op::Unlock), None, 0, 0) => match unlock(rt, self, token) {
                Some(at) => Some(Either::Made(Reply::Ok, at)),
                None => None,
            },
            _ => None,
        }
    }

    fn split(&self, first: &mut LevelToken, calls: u32) -> LevelToken {
        let pass = self.split(&mut first.pass, calls);
        let levels = Levels::none(pass.number());
        LevelToken { pass, levels }
    }

    fn join(&self, token: &mut LevelToken, other: LevelToken) {
        self.join(&mut token.pass, other.pass);
    }

    fn meet(&self, from: &mut LevelToken, to: &mut LevelToken) {
        self.meet(&mut from.pass, &mut to.pass);
    }

    fn give_up<R: Wait>(&self, rt: &R, token: &mut LevelToken) {
        let levels = token.levels.count();
        for _ in 0..levels {
            if token.pass.left() == 0 {
                return;
            }
            unlock(rt, self, token);
        }
    }

    fn is_completing(&self, token: &LevelToken) -> bool {
        let _ = token;
        false
    }

    ghost right = { λ x k v h. record { numbered = h.pass.numbered; shared = h.pass.counted.part; started = h.pass.started; counts = h.pass.counts; only = λ w i. head_is w v (sym i.pass.views ∙ h.pass.views); known = h.pass.known } };

    ghost kind = { record { steps = λ m e. refl; shown = λ m l. refl; picked = λ m e p. p; pooled = λ m. refl; owed = λ m. refl; given = λ m e. refl; taken = λ m e. refl; lived = λ m id. refl } };
}
