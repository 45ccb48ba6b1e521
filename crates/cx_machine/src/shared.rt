ghost use Rattle.cx_machine.specs.Meaning.{IsOnceEach};

use crate::kind::{Entry, Op};
use crate::machine::{Machine, Meaning};
use crate::number::small;
use crate::sets::{has, remove_from};
use cx_names::{NoMemory, Reply, ThreadNo};
use std::alloc::Global;
use std::marker::Model;

/// The state of a shared mutex [thread.sharedmutex.requirements].
#[derive(Drop)]
pub struct SharedState {
    writer: Option<ThreadNo>,
    readers: Vec<u32>,
    ghost once: { IsOnceEach readers.items },
}

impl SharedState {
    ghost use Rattle.std.specs.Prelude.{◌≡◌, IfOk, OnErr, is_some};
    ghost use Rattle.cx_machine.specs.Words.{when, is_thread, has, Applies};
    ghost use Rattle.cx_machine.specs.States.{shared_of};
    ghost use Rattle.cx_machine.specs.Shared.{opening, is_free, locked, unlocked, can_read, read_by, left_by, step, shows};

    /// A shared mutex that nobody owns.
    pub fn new(alloc: Global) -> SharedState
        ensures { shared_of result ≡ opening }
    {
        SharedState {
            writer: None,
            readers: Vec::new(alloc),
        }
    }

    fn is_free(&self) -> bool
        ensures { result ≡ is_free (shared_of self.now) }
    {
        self.writer.is_none() && self.readers.is_empty()
    }

    fn lock(&mut self, by: ThreadNo) -> bool
        ensures { Applies result (when (is_free (shared_of self.old)) (locked (shared_of self.old) by.0)) (shared_of self.old) (shared_of self.new) }
    {
        let allowed = self.is_free();
        if allowed {
            self.writer = Some(by);
        }
        allowed
    }

    fn is_writer(&self, by: ThreadNo) -> bool
        ensures { result ≡ is_thread (shared_of self.now).writer by.0 }
    {
        match self.writer {
            None => false,
            Some(t) => t.0 == by.0,
        }
    }

    fn unlock(&mut self, by: ThreadNo) -> bool
        ensures { Applies result (when (is_thread (shared_of self.old).writer by.0) (unlocked (shared_of self.old))) (shared_of self.old) (shared_of self.new) }
    {
        let allowed = self.is_writer(by);
        if allowed {
            self.writer = None;
        }
        allowed
    }

    fn can_read(&self, by: ThreadNo) -> bool
        ensures { result ≡ can_read (shared_of self.now) by.0 }
    {
        self.writer.is_none() && !has(&self.readers, by.0)
    }

    fn lock_shared(&mut self, by: ThreadNo) -> Result<bool, NoMemory>
        ensures made { IfOk result (λ made. Applies made (when (can_read (shared_of self.old) by.0) (read_by (shared_of self.old) by.0)) (shared_of self.old) (shared_of self.new)) }
        ensures err { OnErr result (shared_of self.new ≡ shared_of self.old) }
    {
        let allowed = self.can_read(by);
        if allowed {
            self.readers.push(by.0)?;
        }
        Ok(allowed)
    }

    fn unlock_shared(&mut self, by: ThreadNo) -> bool
        ensures { Applies result (when (has (shared_of self.old).readers by.0) (left_by (shared_of self.old) by.0)) (shared_of self.old) (shared_of self.new) }
    {
        let allowed = has(&self.readers, by.0);
        if allowed {
            remove_from(&mut self.readers, by.0);
        }
        allowed
    }

    /// Whether the change is enabled now, so that `apply` would make it. Nothing is changed.
    pub fn enables(&self, by: ThreadNo, op: Op, a: Option<u32>, b: i64, reply: Reply) -> bool
        ensures { result ≡ is_some (step (shared_of self.now) by.0 op a b reply) }
    {
        match (op, a, b, reply) {
            (Op::Lock, Some(0), 0, Reply::Ok) => self.is_free(),
            (Op::TryLock, Some(0), 0, Reply::True) => self.is_free(),
            (Op::Unlock, Some(0), 0, Reply::Ok) => self.is_writer(by),
            (Op::LockShared, Some(0), 0, Reply::Ok) => self.can_read(by),
            (Op::TryLockShared, Some(0), 0, Reply::True) => self.can_read(by),
            (Op::UnlockShared, Some(0), 0, Reply::Ok) => has(&self.readers, by.0),
            _ => false,
        }
    }

    /// Makes the change where it is enabled, and answers whether it is. Where memory runs out the
    /// state is as it was.
    pub fn apply(
        &mut self,
        by: ThreadNo,
        op: Op,
        a: Option<u32>,
        b: i64,
        reply: Reply,
    ) -> Result<bool, NoMemory>
        ensures made { IfOk result (λ made. Applies made (step (shared_of self.old) by.0 op a b reply) (shared_of self.old) (shared_of self.new)) }
        ensures err { OnErr result (shared_of self.new ≡ shared_of self.old) }
    {
        match (op, a, b, reply) {
            (Op::Lock, Some(0), 0, Reply::Ok) => Ok(self.lock(by)),
            (Op::TryLock, Some(0), 0, Reply::True) => Ok(self.lock(by)),
            (Op::Unlock, Some(0), 0, Reply::Ok) => Ok(self.unlock(by)),
            (Op::LockShared, Some(0), 0, Reply::Ok) => self.lock_shared(by),
            (Op::TryLockShared, Some(0), 0, Reply::True) => self.lock_shared(by),
            (Op::UnlockShared, Some(0), 0, Reply::Ok) => Ok(self.unlock_shared(by)),
            _ => Ok(false),
        }
    }

    /// Whether the look is shown.
    pub fn shows(&self, by: ThreadNo, op: Op, a: Option<u32>, b: i64, reply: Reply) -> bool
        ensures { result ≡ shows (shared_of self.now) by.0 op a b reply }
    {
        match (op, a, b, reply) {
            (Op::TryLock, Some(0), 0, Reply::False) => !self.is_free(),
            (Op::TryLockShared, Some(0), 0, Reply::False) => self.writer.is_some(),
            _ => false,
        }
    }
}

/// What a shared mutex is, by the standard. No value of it is made.
#[derive(Drop)]
pub struct SharedMachine;

impl Model for SharedMachine {
    ghost use Rattle.cx_machine.specs.Shared.{Shared, opening};

    ghost Value = { Shared };

    ghost view = { λ _. opening };
}

impl Meaning for SharedMachine {
    ghost use Rattle.cx_machine.specs.Acts.{at_entry, at_look};
    ghost use Rattle.cx_machine.specs.Shared.{Shared, opening, step, shows};

    ghost step = { at_entry step };

    ghost shows = { at_look shows };

    ghost members = { λ (s : Shared). s.readers };

    ghost most = { λ s seats. seats };

    ghost any = { opening };
}

impl Machine<SharedMachine> for SharedState {
    ghost use Rattle.std.specs.Prelude.{◌≡◌, ◌-◌, refl, vec_len, vec_capacity};
    ghost use Rattle.std.proofs.Common.{rules};
    ghost use Rattle.cx_machine.specs.States.{shared_of};
    ghost use Rattle.cx_machine.specs.Readers.{shared_most_holds};

    type Hand = ();

    ghost meaning = { shared_of };

    ghost spare = { λ s. vec_capacity s.readers - vec_len s.readers };

    ghost moves = { λ s h e t k. h ≡ k };

    ghost alike = { λ s t. shared_of s ≡ shared_of t };

    fn reply(&self, by: ThreadNo, op: Op, a: i64, b: i64) -> Option<Reply> {
        match (op, small(a), b) {
            (Op::Lock, Some(0), 0) => self.is_free().then_some(Reply::Ok),
            (Op::TryLock, Some(0), 0) => self.is_free().then_some(Reply::True),
            (Op::Unlock, Some(0), 0) => self.is_writer(by).then_some(Reply::Ok),
            (Op::LockShared, Some(0), 0) => self.can_read(by).then_some(Reply::Ok),
            (Op::TryLockShared, Some(0), 0) => self.can_read(by).then_some(Reply::True),
            (Op::UnlockShared, Some(0), 0) => has(&self.readers, by.0).then_some(Reply::Ok),
            _ => None,
        }
    }

    fn show(&self, _by: ThreadNo, op: Op, a: i64, b: i64) -> Option<Reply> {
        match (op, small(a), b) {
            (Op::TryLock, Some(0), 0) => (!self.is_free()).then_some(Reply::False),
            (Op::TryLockShared, Some(0), 0) => self.writer.is_some().then_some(Reply::False),
            _ => None,
        }
    }

    fn make(&mut self, e: &Entry, _hand: &mut Option<()>) {
        match e.op {
            Op::LockShared | Op::TryLockShared => self.readers.push_reserved(e.by.0),
            Op::UnlockShared => remove_from(&mut self.readers, e.by.0),
            Op::Unlock => self.writer = None,
            _ => self.writer = Some(e.by),
        }
    }

    fn reserve(&mut self, n: u32) -> Result<(), NoMemory> {
        self.readers.reserve_exact(n as usize)?;
        Ok(())
    }

    fn most(&self, seats: u32) -> u32 {
        seats
    }

    fn pool(&self) -> u32 {
        0
    }

    fn debt(&self) -> u32 {
        0
    }

    ghost lives_on = { λ m n e id s. Prim.search rules };

    ghost most_stays = { λ m n e seats s. refl };

    ghost most_holds = { shared_most_holds };

    ghost once_each = { λ s. s.once };
}
