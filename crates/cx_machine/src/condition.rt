ghost use Rattle.std.specs.Prelude.{◌+◌, ◌≤◌, ◌++◌, vec_len, vec_capacity};
ghost use Rattle.cx_machine.specs.Meaning.{IsOnceEach};

use crate::kind::{Entry, Op};
use crate::machine::{Machine, Meaning};
use crate::number::small;
use crate::sets::{has, remove_from};
use cx_names::{NoMemory, Reply, ThreadNo};
use std::alloc::Global;
use std::marker::Model;

/// The state of a condition variable [thread.condition].
#[derive(Drop)]
pub struct ConditionState {
    waiting: Vec<u32>,
    notified: Vec<u32>,

    // How many more threads may enter without taking memory. Whoever waits may be notified later,
    // so each list has room for both.
    room: usize,
    ghost once: { IsOnceEach (waiting.items ++ notified.items) },
    ghost to_wait: { vec_len waiting + vec_len notified + room ≤ vec_capacity waiting },
    ghost to_be_told: { vec_len waiting + vec_len notified + room ≤ vec_capacity notified },
}

impl ConditionState {
    ghost use Rattle.std.specs.Prelude.{◌≡◌, ◌==◌, ◌<◌, true, pos, length, IfOk, IfErr, IsOk, OnErr, is_some};
    ghost use Rattle.cx_names.specs.Replies.{int_eq};
    ghost use Rattle.cx_machine.specs.Words.{when, has, Applies};
    ghost use Rattle.cx_machine.specs.Condition.{opening, is_away, entered, moved, all_moved, unblocked, withdrawn, step, shows};
    ghost use Rattle.cx_machine.specs.Now.{condition_reply};
    ghost use Rattle.cx_machine.specs.States.{condition_of, total};
    ghost use Rattle.cx_machine.specs.Waiters.{HasRoom};

    /// A condition for which nobody waits.
    pub fn new(alloc: Global) -> ConditionState
        ensures { condition_of result ≡ opening }
    {
        ConditionState {
            waiting: Vec::new(alloc),
            notified: Vec::new(alloc),
            room: 0,
        }
    }

    fn is_away(&self, by: ThreadNo) -> bool
        ensures { result ≡ is_away (condition_of self.now) by.0 }
    {
        !(has(&self.waiting, by.0) || has(&self.notified, by.0))
    }

    /// Makes room for `n` more threads.
    fn make_room(&mut self, n: usize) -> Result<(), NoMemory>
        requires { n < 4_294_967_296 }
        ensures waiting { self.new.waiting.items ≡ self.old.waiting.items }
        ensures notified { self.new.notified.items ≡ self.old.notified.items }
        ensures room { IfOk result (λ _. n ≤ self.new.room) }
        ensures more { self.old.room ≤ self.new.room }
        ensures refused { IfErr result (λ _. self.new.room ≡ self.old.room) }
        ensures there { n ≤ self.old.room → IsOk result × (total self.new ≡ total self.old) }
    {
        if self.room < n {
            self.waiting.reserve(self.notified.len() + n)?;
            self.notified.reserve(self.waiting.len() + n)?;
            self.room = n;
        }
        Ok(())
    }

    fn put(&mut self, by: ThreadNo)
        requires away { is_away (condition_of self.old) by.0 ≡ true }
        requires room { 0 < self.old.room }
        ensures state { condition_of self.new ≡ entered (condition_of self.old) by.0 }
        ensures room { total self.new ≡ total self.old }
    {
        self.waiting.push_reserved(by.0);
        self.room -= 1;
    }

    fn enter(&mut self, by: ThreadNo) -> Result<bool, NoMemory>
        ensures made { IfOk result (λ made. Applies made (when (is_away (condition_of self.old) by.0) (entered (condition_of self.old) by.0)) (condition_of self.old) (condition_of self.new)) }
        ensures err { OnErr result (condition_of self.new ≡ condition_of self.old) }
        ensures room { HasRoom self.old.room (condition_of self.old) (when (is_away (condition_of self.old) by.0) (entered (condition_of self.old) by.0)) → IsOk result × (total self.new ≡ total self.old) }
    {
        let allowed = self.is_away(by);
        if allowed {
            self.make_room(1)?;
            self.put(by);
        }
        Ok(allowed)
    }

    fn notify(&mut self, t: ThreadNo) -> bool
        ensures made { Applies result (when (has (condition_of self.old).waiting t.0) (moved (condition_of self.old) t.0)) (condition_of self.old) (condition_of self.new) }
        ensures room { total self.new ≡ total self.old }
    {
        let allowed = has(&self.waiting, t.0);
        if allowed {
            self.notified.push_reserved(t.0);
            remove_from(&mut self.waiting, t.0);
        }
        allowed
    }

    fn notify_all(&mut self, k: i64) -> bool
        ensures made { Applies result (when (int_eq k (pos (length (condition_of self.old).waiting))) (all_moved (condition_of self.old))) (condition_of self.old) (condition_of self.new) }
        ensures room { total self.new ≡ total self.old }
    {
        let allowed = k == self.waiting.len() as i64;
        if allowed {
            let _moved = self.notified.extend_from_slice(&self.waiting);
            self.waiting.clear();
        }
        allowed
    }

    fn unblock(&mut self, by: ThreadNo) -> bool
        ensures made { Applies result (when (has (condition_of self.old).notified by.0) (unblocked (condition_of self.old) by.0)) (condition_of self.old) (condition_of self.new) }
        ensures room { total self.new ≡ total self.old }
    {
        let allowed = has(&self.notified, by.0);
        if allowed {
            remove_from(&mut self.notified, by.0);
            self.room += 1;
        }
        allowed
    }

    fn withdraw(&mut self, by: ThreadNo) -> bool
        ensures made { Applies result (when (has (condition_of self.old).waiting by.0) (withdrawn (condition_of self.old) by.0)) (condition_of self.old) (condition_of self.new) }
        ensures room { total self.new ≡ total self.old }
    {
        let allowed = has(&self.waiting, by.0);
        if allowed {
            remove_from(&mut self.waiting, by.0);
            self.room += 1;
        }
        allowed
    }

    /// Whether the change is enabled now, so that `apply` would make it. Nothing is changed.
    pub fn enables(&self, by: ThreadNo, op: Op, a: Option<u32>, b: i64, reply: Reply) -> bool
        ensures { result ≡ is_some (step (condition_of self.now) by.0 op a b reply) }
    {
        match (op, a, b, reply) {
            (Op::Enter, Some(0), 0, Reply::Ok) => self.is_away(by),
            (Op::NotifyOne, Some(0), 0, Reply::Thread(t)) => has(&self.waiting, t.0),
            (Op::NotifyOne, Some(0), 0, Reply::Nobody) => self.waiting.is_empty(),
            (Op::NotifyAll, Some(0), 0, Reply::Number(k)) => k == self.waiting.len() as i64,
            (Op::Unblock, Some(0), 0, Reply::Ok) => has(&self.notified, by.0),
            (Op::Withdraw, Some(0), 0, Reply::Ok) => has(&self.waiting, by.0),
            _ => false,
        }
    }

    /// Makes the change where it is enabled, and answers whether it is. Only a thread that enters
    /// takes memory; where that runs out the state is as it was.
    pub fn apply(
        &mut self,
        by: ThreadNo,
        op: Op,
        a: Option<u32>,
        b: i64,
        reply: Reply,
    ) -> Result<bool, NoMemory>
        ensures made { IfOk result (λ made. Applies made (step (condition_of self.old) by.0 op a b reply) (condition_of self.old) (condition_of self.new)) }
        ensures err { OnErr result (condition_of self.new ≡ condition_of self.old) }
        ensures room { HasRoom self.old.room (condition_of self.old) (step (condition_of self.old) by.0 op a b reply) → IsOk result × (total self.new ≡ total self.old) }
    {
        match (op, a, b, reply) {
            (Op::Enter, Some(0), 0, Reply::Ok) => self.enter(by),
            (Op::NotifyOne, Some(0), 0, Reply::Thread(t)) => Ok(self.notify(t)),
            (Op::NotifyOne, Some(0), 0, Reply::Nobody) => Ok(self.waiting.is_empty()),
            (Op::NotifyAll, Some(0), 0, Reply::Number(k)) => Ok(self.notify_all(k)),
            (Op::Unblock, Some(0), 0, Reply::Ok) => Ok(self.unblock(by)),
            (Op::Withdraw, Some(0), 0, Reply::Ok) => Ok(self.withdraw(by)),
            _ => Ok(false),
        }
    }

    /// Whether the look is shown: a condition shows none.
    pub fn shows(&self, by: ThreadNo, op: Op, a: Option<u32>, b: i64, reply: Reply) -> bool
        ensures { result ≡ shows (condition_of self.now) by.0 op a b reply }
    {
        false
    }

    /// The reply of a notification now: the thread that entered first, or how many wait.
    pub fn reply_now(&self, op: Op) -> Reply
        ensures { result ≡ condition_reply (condition_of self.now) op }
    {
        match op {
            Op::NotifyOne => match self.waiting.first() {
                None => Reply::Nobody,
                Some(t) => Reply::Thread(ThreadNo(*t)),
            },
            Op::NotifyAll => Reply::Number(self.waiting.len() as i64),
            _ => Reply::Ok,
        }
    }
}

/// What a condition variable is, by the standard. No value of it is made.
#[derive(Drop)]
pub struct ConditionMachine;

impl Model for ConditionMachine {
    ghost use Rattle.cx_machine.specs.Condition.{Condition, opening};

    ghost Value = { Condition };

    ghost view = { λ _. opening };
}

impl Meaning for ConditionMachine {
    ghost use Rattle.cx_machine.specs.Acts.{at_entry, at_look};
    ghost use Rattle.cx_machine.specs.Condition.{Condition, opening, step, shows};
    ghost use Rattle.cx_machine.specs.Waiters.{members, Picks};

    ghost step = { at_entry step };

    ghost shows = { at_look shows };

    ghost picks = { λ (c : Condition) e. Picks c e.op e.reply };

    ghost members = { members };

    ghost most = { λ c seats. seats };

    ghost any = { opening };
}

impl Machine<ConditionMachine> for ConditionState {
    ghost use Rattle.std.specs.Prelude.{◌≡◌, refl};
    ghost use Rattle.std.proofs.Common.{rules};
    ghost use Rattle.cx_machine.specs.States.{condition_of};
    ghost use Rattle.cx_machine.specs.Waiters.{condition_most_holds};

    type Hand = ();

    ghost meaning = { condition_of };

    ghost spare = { λ c. c.room };

    ghost moves = { λ c h e d k. h ≡ k };

    ghost alike = { λ c d. condition_of c ≡ condition_of d };

    fn reply(&self, by: ThreadNo, op: Op, a: i64, b: i64) -> Option<Reply> {
        match (op, small(a), b) {
            (Op::Enter, Some(0), 0) => self.is_away(by).then_some(Reply::Ok),
            (Op::NotifyOne, Some(0), 0) => Some(self.reply_now(Op::NotifyOne)),
            (Op::NotifyAll, Some(0), 0) => Some(self.reply_now(Op::NotifyAll)),
            (Op::Unblock, Some(0), 0) => has(&self.notified, by.0).then_some(Reply::Ok),
            (Op::Withdraw, Some(0), 0) => has(&self.waiting, by.0).then_some(Reply::Ok),
            _ => None,
        }
    }

    fn show(&self, _by: ThreadNo, _op: Op, _a: i64, _b: i64) -> Option<Reply> {
        None
    }

    fn make(&mut self, e: &Entry, _hand: &mut Option<()>) {
        let _made = self.apply(e.by, e.op, small(e.a), e.b, e.reply);
    }

    fn reserve(&mut self, n: u32) -> Result<(), NoMemory> {
        self.make_room(n as usize)
    }

    fn most(&self, seats: u32) -> u32 {
        seats
    }

    fn pool(&self) -> u32 {
        0
    }

    fn debt(&self) -> u32 {
        0
    }

    ghost lives_on = { λ m n e id s. Prim.search rules };

    ghost most_stays = { λ m n e seats s. refl };

    ghost most_holds = { condition_most_holds };

    ghost once_each = { λ c. c.once };
}
