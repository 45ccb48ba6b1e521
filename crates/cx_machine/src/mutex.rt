ghost use Rattle.std.specs.Prelude.{◌≡◌, ◌+ℤ◌};
ghost use Rattle.cx_machine.specs.Words.{fitting};

use crate::kind::{Entry, Op};
use crate::machine::{Machine, Meaning};
use crate::number::small;
use cx_names::{LEVELS, NoMemory, Reply, ThreadNo};
use std::alloc::Global;
use std::marker::Model;

/// The sum, where it is a number of 64 bits.
fn fitting_sum(n: i64, v: i64) -> Option<i64>
    ensures { result ≡ fitting (n +ℤ v) }
{
    n.checked_add(v)
}

/// The state of a mutex, plain or recursive [thread.mutex.requirements], and the numbers that it
/// guards.
#[derive(Drop)]
pub struct MutexState {
    recursive: bool,
    owner: Option<ThreadNo>,
    level: u32,
    numbers: Vec<i64>,
}

impl Model for MutexState {
    ghost use Rattle.std.specs.Prelude.{◌≤◌};
    ghost use Rattle.cx_machine.specs.Words.{thread_number};
    ghost use Rattle.cx_machine.specs.Mutex.{Mutex, most_levels};

    ghost Value = { Mutex };

    ghost view = { λ m. record { recursive = m.recursive; owner = thread_number m.owner; level = m.level; numbers = m.numbers.items } };

    ghost invariant = { λ m. m.level ≤ most_levels (thread_number m.owner) };
}

impl MutexState {
    ghost use Rattle.cx_machine.specs.Now.{mutex_reply};
    ghost use Rattle.std.specs.Prelude.{◌≡◌, ◌&&◌, ◌==◌, option_and_then, length, slice_get, nat_lt, IfOk, is_some};
    ghost use Rattle.cx_machine.specs.Words.{fitting, when, Applies};
    ghost use Rattle.cx_machine.specs.Mutex.{opening, owns, can_lock, locked, unlocked, number_at, sum_at, with_number, added, overflows, step, shows};

    /// A mutex that nobody owns, and this many numbers that are 0.
    pub fn new(alloc: Global, recursive: bool, numbers: u8) -> Result<MutexState, NoMemory>
        ensures { IfOk result (λ m. m ≡ opening recursive numbers) }
    {
        Ok(MutexState {
            recursive,
            owner: None,
            level: 0,
            numbers: vec![in alloc; 0; numbers as usize]?,
        })
    }

    fn owns(&self, by: ThreadNo) -> bool
        ensures { result ≡ owns self.now by.0 }
    {
        match self.owner {
            None => false,
            Some(t) => t.0 == by.0,
        }
    }

    fn can_lock(&self, by: ThreadNo) -> bool
        ensures { result ≡ can_lock self.now by.0 }
    {
        match self.owner {
            None => true,
            Some(t) => self.recursive && t.0 == by.0 && self.level < LEVELS,
        }
    }

    fn lock(&mut self, by: ThreadNo) -> bool
        ensures { Applies result (when (can_lock self.old by.0) (locked self.old by.0)) self.old self.new }
    {
        let allowed = self.can_lock(by);
        if allowed {
            self.owner = Some(by);
            self.level += 1;
        }
        allowed
    }

    fn unlock(&mut self, by: ThreadNo) -> bool
        ensures { Applies result (when (owns self.old by.0) (unlocked self.old)) self.old self.new }
    {
        let allowed = self.owns(by);
        if allowed {
            if self.level <= 1 {
                self.owner = None;
            }
            self.level = self.level.saturating_sub(1);
        }
        allowed
    }

    fn can_set(&self, by: ThreadNo, i: u32) -> bool
        ensures { result ≡ (owns self.now by.0 && nat_lt i (length self.now.numbers)) }
    {
        self.owns(by) && (i as usize) < self.numbers.len()
    }

    fn set(&mut self, by: ThreadNo, i: u32, v: i64) -> bool
        ensures { Applies result (when (owns self.old by.0 && nat_lt i (length self.old.numbers)) (with_number self.old i v)) self.old self.new }
    {
        let allowed = self.owns(by) && (i as usize) < self.numbers.len();
        if allowed {
            self.numbers[i as usize] = v;
        }
        allowed
    }

    /// The number at this place, whoever owns the mutex.
    pub fn number(&self, i: u32) -> Option<i64>
        ensures { result ≡ slice_get self.now.numbers i }
    {
        self.numbers.get(i as usize).copied()
    }

    fn number_at(&self, by: ThreadNo, i: u32) -> Option<i64>
        ensures { result ≡ number_at self.now by.0 i }
    {
        if self.owns(by) { self.number(i) } else { None }
    }

    fn add(&mut self, by: ThreadNo, i: u32, v: i64, r: i64) -> bool
        ensures { Applies result (added self.old i r (sum_at self.old by.0 i v)) self.old self.new }
    {
        let Some(n) = self.number_at(by, i) else {
            return false;
        };
        let Some(sum) = fitting_sum(n, v) else {
            return false;
        };
        let allowed = sum == r;
        if allowed {
            self.numbers[i as usize] = r;
        }
        allowed
    }

    /// The reply of a `get` or an `add` now, where it has one.
    pub fn reply_now(&self, by: ThreadNo, op: Op, a: Option<u32>, b: i64) -> Reply
        ensures { result ≡ mutex_reply self.now by.0 op a b }
    {
        let number = match (op, a) {
            (Op::Get, Some(i)) => self.number(i),
            (Op::Add, Some(i)) => self.sum_at(by, i, b),
            _ => None,
        };
        match number {
            None => Reply::Ok,
            Some(n) => Reply::Number(n),
        }
    }

    fn sum_at(&self, by: ThreadNo, i: u32, v: i64) -> Option<i64>
        ensures { result ≡ option_and_then fitting (sum_at self.now by.0 i v) }
    {
        match self.number_at(by, i) {
            None => None,
            Some(n) => fitting_sum(n, v),
        }
    }

    fn can_add(&self, by: ThreadNo, i: u32, v: i64, r: i64) -> bool
        ensures { result ≡ is_some (added self.now i r (sum_at self.now by.0 i v)) }
    {
        match self.sum_at(by, i, v) {
            None => false,
            Some(sum) => sum == r,
        }
    }

    /// Whether the change is enabled now, so that `apply` would make it. Nothing is changed.
    pub fn enables(&self, by: ThreadNo, op: Op, a: Option<u32>, b: i64, reply: Reply) -> bool
        ensures { result ≡ is_some (step self.now by.0 op a b reply) }
    {
        match (op, a, b, reply) {
            (Op::Lock, Some(0), 0, Reply::Ok) => self.can_lock(by),
            (Op::TryLock, Some(0), 0, Reply::True) => self.can_lock(by),
            (Op::Unlock, Some(0), 0, Reply::Ok) => self.owns(by),
            (Op::Set, Some(i), _, Reply::Ok) => self.can_set(by, i),
            (Op::Add, Some(i), v, Reply::Number(r)) => self.can_add(by, i, v, r),
            _ => false,
        }
    }

    /// Makes the change where it is enabled, and answers whether it is.
    pub fn apply(&mut self, by: ThreadNo, op: Op, a: Option<u32>, b: i64, reply: Reply) -> bool
        ensures { Applies result (step self.old by.0 op a b reply) self.old self.new }
    {
        match (op, a, b, reply) {
            (Op::Lock, Some(0), 0, Reply::Ok) => self.lock(by),
            (Op::TryLock, Some(0), 0, Reply::True) => self.lock(by),
            (Op::Unlock, Some(0), 0, Reply::Ok) => self.unlock(by),
            (Op::Set, Some(i), v, Reply::Ok) => self.set(by, i, v),
            (Op::Add, Some(i), v, Reply::Number(r)) => self.add(by, i, v, r),
            _ => false,
        }
    }

    fn overflows(&self, by: ThreadNo, i: u32, v: i64) -> bool
        ensures { result ≡ overflows (sum_at self.now by.0 i v) }
    {
        match self.number_at(by, i) {
            None => false,
            Some(n) => fitting_sum(n, v).is_none(),
        }
    }

    fn is_at_most_levels(&self, by: ThreadNo) -> bool
        ensures { result ≡ (self.now.recursive && owns self.now by.0 && (self.now.level == 1000)) }
    {
        self.recursive && self.owns(by) && self.level == LEVELS
    }

    /// Whether the look is shown.
    pub fn shows(&self, by: ThreadNo, op: Op, a: Option<u32>, b: i64, reply: Reply) -> bool
        ensures { result ≡ shows self.now by.0 op a b reply }
    {
        match (op, a, b, reply) {
            (Op::TryLock, Some(0), 0, Reply::False) => !self.can_lock(by),
            (Op::Lock, Some(0), 0, Reply::MaxLevels) => self.is_at_most_levels(by),
            (Op::Get, Some(i), 0, Reply::Number(v)) => self.owns(by) && self.number(i) == Some(v),
            (Op::Add, Some(i), v, Reply::Overflow) => self.overflows(by, i, v),
            _ => false,
        }
    }
}

/// What a mutex, plain or recursive, is, by the standard. No value of it is made.
#[derive(Drop)]
pub struct MutexMachine;

impl Model for MutexMachine {
    ghost use Rattle.std.specs.Prelude.{false};
    ghost use Rattle.cx_machine.specs.Mutex.{Mutex, opening};

    ghost Value = { Mutex };

    ghost view = { λ _. opening false 0 };
}

impl Meaning for MutexMachine {
    ghost use Rattle.std.specs.Prelude.{[], false};
    ghost use Rattle.cx_machine.specs.Acts.{at_entry, at_look};
    ghost use Rattle.cx_machine.specs.Mutex.{Mutex, opening, step, shows};

    ghost step = { at_entry step };

    ghost shows = { at_look shows };

    ghost members = { λ _. [] };

    ghost most = { λ _ _. 0 };

    ghost any = { opening false 0 };
}

impl Machine<MutexMachine> for MutexState {
    ghost use Rattle.std.specs.Prelude.{◌≡◌, ◌^◌, refl};
    ghost use Rattle.std.proofs.Common.{rules};

    type Hand = ();

    ghost meaning = { λ s. s };

    ghost spare = { λ _. 2 ^ 32 };

    ghost moves = { λ s h e t k. h ≡ k };

    ghost alike = { λ s t. s ≡ t };

    fn reply(&self, by: ThreadNo, op: Op, a: i64, b: i64) -> Option<Reply> {
        match (op, small(a), b) {
            (Op::Lock, Some(0), 0) => self.can_lock(by).then_some(Reply::Ok),
            (Op::TryLock, Some(0), 0) => self.can_lock(by).then_some(Reply::True),
            (Op::Unlock, Some(0), 0) => self.owns(by).then_some(Reply::Ok),
            (Op::Set, Some(i), _) => self.can_set(by, i).then_some(Reply::Ok),
            (Op::Add, Some(i), v) => self.sum_at(by, i, v).map(Reply::Number),
            _ => None,
        }
    }

    fn show(&self, by: ThreadNo, op: Op, a: i64, b: i64) -> Option<Reply> {
        match (op, small(a), b) {
            (Op::TryLock, Some(0), 0) => (!self.can_lock(by)).then_some(Reply::False),
            (Op::Lock, Some(0), 0) => self.is_at_most_levels(by).then_some(Reply::MaxLevels),
            (Op::Get, Some(i), 0) => self.number_at(by, i).map(Reply::Number),
            (Op::Add, Some(i), v) => self.overflows(by, i, v).then_some(Reply::Overflow),
            _ => None,
        }
    }

    fn make(&mut self, e: &Entry, _hand: &mut Option<()>) {
        let _made = self.apply(e.by, e.op, small(e.a), e.b, e.reply);
    }

    fn reserve(&mut self, _n: u32) -> Result<(), NoMemory> {
        Ok(())
    }

    fn most(&self, _seats: u32) -> u32 {
        0
    }

    fn pool(&self) -> u32 {
        0
    }

    fn debt(&self) -> u32 {
        0
    }

    ghost lives_on = { λ m n e id s. Prim.search rules };

    ghost most_stays = { λ m n e seats s. refl };

    ghost most_holds = { λ m n seats es none below s. Prim.search rules };

    ghost once_each = { λ s id. Prim.search rules };
}
