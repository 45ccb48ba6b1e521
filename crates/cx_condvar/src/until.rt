//! A wait with a predicate [thread.condition.condvar].
ghost use Rattle.std.specs.Prelude.{◌≡◌, ◌+◌, ◌-◌, ◌*◌, ◌<◌, ◌≤◌, ◌++◌, ◌∷◌, [], ℕ, ℤ, pos, vec_len, vec_capacity, IfOk, IfErr};
ghost use Rattle.cx_names.specs.declared.Reply.TheVariants as replies;
ghost use Rattle.cx_machine.specs.declared.kind.Op.{Op};
ghost use Rattle.cx_machine.specs.Meaning.{change};
ghost use Rattle.cx_mutex.specs.Keys.{locks, unlocks};
ghost use Rattle.cx_mutex.specs.Kinds.{locking};
ghost use Rattle.cx_mutex.specs.Mutexes.{IsMutexPass, IsMutexPassWith, IsHeldBy, MutexLooks};
ghost use Rattle.cx_condvar.specs.Condvars.{IsCondPass, IsOut};
ghost use Rattle.cx_condvar.specs.Waiting.{WaitsOnce, Relocks};
ghost use Rattle.cx_condvar.specs.Logs.{Waits, get_at, look_act, wait_acts, WaitsUntil, RunsOut};

use crate::condvar::{CondPass, CondvarAny};
use crate::log::{Log, Logged, Part};
use crate::predicate::Predicate;
use crate::wait::Waits;
use cx_machine::{Entry, Look, Op};
use cx_mutex::{Hold, Mutex, MutexPass};
use cx_names::{NoMemory, Reply, TURNS, ThreadNo, Turns};
use std::sync::Wait;

/// What a wait with a predicate came to.
#[derive(Clone, Copy, Debug, PartialEq, Eq)]
pub enum Waited {
    /// The predicate holds.
    True,
    /// The predicate doesn't hold, and the caller has no turn left to wait with.
    Spent,
}

// The change with this word, no numbers, and the reply ok.
fn plain(by: ThreadNo, op: Op) -> Entry
    ensures { result ≡ change by op (pos 0) (pos 0) replies.Ok }
{
    Entry {
        by,
        op,
        a: 0,
        b: 0,
        reply: Reply::Ok,
    }
}

// The look at the number at an index.
fn get(by: ThreadNo, index: u8, value: i64, at: u32) -> Look
    ensures { result ≡ get_at by index value at }
{
    Look {
        by,
        op: Op::Get,
        a: index as i64,
        b: 0,
        reply: Reply::Number(value),
        at,
    }
}

// Logs the four acts of a wait, for which there is room.
fn log_wait(log: &mut Log, by: ThreadNo, owner: ThreadNo, at: Waits)
    requires room { vec_len log.old.acts + 4 ≤ vec_capacity log.old.acts }
    ensures logged { log.new.acts.items ≡ log.old.acts.items ++ wait_acts by owner at }
    ensures room { vec_capacity log.new.acts ≡ vec_capacity log.old.acts }
{
    let enter = plain(by, Op::Enter);
    log.acts
        .push_reserved(Logged::Change(Part::Condition, at.enter, enter));
    let unlock = plain(owner, Op::Unlock);
    log.acts
        .push_reserved(Logged::Change(Part::Mutex, at.unlock, unlock));
    let unblock = plain(by, Op::Unblock);
    log.acts
        .push_reserved(Logged::Change(Part::Condition, at.unblock, unblock));
    let lock = plain(owner, Op::Lock);
    log.acts
        .push_reserved(Logged::Change(Part::Mutex, at.lock, lock));
}

// Looks at the number, for which there is room in the log, and says whether the predicate holds of it.
fn test<R: Wait, P: Predicate>(
    rt: &R,
    m: &Mutex,
    key: &mut MutexPass,
    hold: &Hold,
    pred: &P,
    log: &mut Log,
) -> bool
    requires key { IsMutexPass m.now key.old }
    requires held { IsHeldBy m.now key.old hold.now }
    requires index { P.number pred.now < m.now.numbers }
    requires room { vec_len log.old.acts + 1 ≤ vec_capacity log.old.acts }
    ensures idle { IsMutexPass m.now key.new }
    ensures left { key.new.left ≡ key.old.left }
    ensures number { key.new.number ≡ key.old.number }
    ensures held { IsHeldBy m.now key.new hold.now }
    ensures room { vec_capacity log.new.acts ≡ vec_capacity log.old.acts }
    ensures tested { (value : ℤ) × (at : ℕ) × (result ≡ P.holds pred.now value) × (log.new.acts.items ≡ log.old.acts.items ++ look_act key.old.number (P.number pred.now) value at ∷ []) × MutexLooks m.now key.old key.new (get_at key.old.number (P.number pred.now) value at) }
{
    let index = pred.number();
    let by = key.number();
    let (value, at) = m.get(rt, key, hold, index);
    log.acts
        .push_reserved(Logged::Look(Part::Mutex, get(by, index, value, at)));
    pred.holds(value)
}

impl CondvarAny {
    // Waits once, and logs the four acts, for which there is room.
    fn wait_once<R: Wait>(
        &self,
        rt: &R,
        pass: &mut CondPass,
        m: &Mutex,
        key: &mut MutexPass,
        hold: Hold,
        log: &mut Log,
    ) -> Hold
        requires pass { IsCondPass self.now pass.old }
        requires out { IsOut self.now pass.old }
        requires left { 2 ≤ pass.old.left }
        requires key { IsMutexPass m.now key.old }
        requires held { IsHeldBy m.now key.old hold }
        requires key_left { 2 ≤ key.old.left }
        requires room { vec_len log.old.acts + 4 ≤ vec_capacity log.old.acts }
        ensures idle { IsCondPass self.now pass.new }
        ensures left { pass.new.left + 2 ≡ pass.old.left }
        ensures number { pass.new.number ≡ pass.old.number }
        ensures out { IsOut self.now pass.new }
        ensures key { IsMutexPass m.now key.new }
        ensures held { IsHeldBy m.now key.new result }
        ensures key_left { key.new.left + 2 ≡ key.old.left }
        ensures key_number { key.new.number ≡ key.old.number }
        ensures waited { (at : Waits) × (log.new.acts.items ≡ log.old.acts.items ++ wait_acts pass.old.number key.old.number at) × WaitsOnce self.now pass.old pass.new at × Relocks locking (IsMutexPassWith m.now) (unlocks key.old.number) (locks key.old.number) key.old key.new at }
        ensures room { vec_capacity log.new.acts ≡ vec_capacity log.old.acts }
    {
        let by = pass.number();
        let owner = key.number();
        let (hold, at) = self.wait(rt, pass, m, key, hold);
        log_wait(log, by, owner, at);
        hold
    }

    /// Waits until the predicate holds: it looks at the number, and where the predicate fails it waits once,
    /// takes a turn, and looks again. Gives the mutex's hold.
    ///
    /// The predicate's number is one that `m` guards. `turns` says how many turns the caller has taken; each
    /// pass has two changes left for each turn to be had.
    ///
    /// Spent comes exactly where the predicate fails and `TURNS` turns are taken. NoMemory comes where the log
    /// has no room for the next acts: then too the mutex is held, the condition isn't entered, and the log has
    /// the acts that were made.
    pub fn wait_until_true<R: Wait, P: Predicate>(
        &self,
        rt: &R,
        pass: &mut CondPass,
        m: &Mutex,
        key: &mut MutexPass,
        hold: Hold,
        pred: &P,
        turns: &mut Turns,
        log: &mut Log,
    ) -> Result<(Waited, Hold), (NoMemory, Hold)>
        requires pass { IsCondPass self.now pass.old }
        requires out { IsOut self.now pass.old }
        requires key { IsMutexPass m.now key.old }
        requires held { IsHeldBy m.now key.old hold }
        requires index { P.number pred.now < m.now.numbers }
        requires turns { turns.old.used ≤ 16384 }
        requires left { 2 * (16384 - turns.old.used) ≤ pass.old.left }
        requires key_left { 2 * (16384 - turns.old.used) ≤ key.old.left }
        ensures idle { IsCondPass self.now pass.new }
        ensures out { IsOut self.now pass.new }
        ensures key { IsMutexPass m.now key.new }
        ensures held { IfOk result (λ t. IsHeldBy m.now key.new t.1) }
        ensures still_held { IfErr result (λ t. IsHeldBy m.now key.new t.1) }
        ensures turns { (turns.old.used ≤ turns.new.used) × (turns.new.used ≤ 16384) }
        ensures left { pass.new.left + 2 * (turns.new.used - turns.old.used) ≡ pass.old.left }
        ensures key_left { key.new.left + 2 * (turns.new.used - turns.old.used) ≡ key.old.left }
        ensures waited { IfOk result (λ t. WaitsUntil self.now m.now (P.number pred.now) (P.holds pred.now) t.0 pass.old pass.new key.old key.new log.old log.new turns.old.used turns.new.used) }
        ensures refused { IfErr result (λ t. RunsOut self.now m.now (P.number pred.now) (P.holds pred.now) pass.old pass.new key.old key.new log.old log.new turns.old.used turns.new.used) }
    {
        let mut hold = hold;
        if log.acts.reserve(1).is_err() {
            return Err((NoMemory, hold));
        }
        for _turn in turns.used..TURNS {
            if test(rt, m, key, &hold, pred, log) {
                return Ok((Waited::True, hold));
            }
            if log.acts.reserve(5).is_err() {
                return Err((NoMemory, hold));
            }
            hold = self.wait_once(rt, pass, m, key, hold, log);
            turns.used += 1;
        }
        let holds = test(rt, m, key, &hold, pred, log);
        if holds {
            Ok((Waited::True, hold))
        } else {
            Ok((Waited::Spent, hold))
        }
    }
}
