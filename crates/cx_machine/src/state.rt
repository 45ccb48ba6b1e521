use crate::barrier::BarrierState;
use crate::condition::ConditionState;
use crate::future::FutureState;
use crate::kind::{Entry, Kind, Look, Op};
use crate::latch::LatchState;
use crate::mutex::MutexState;
use crate::number::small;
use crate::once::OnceState;
use crate::semaphore::SemaphoreState;
use crate::shared::SharedState;
use crate::stop::StopState;
use cx_names::{NoMemory, Reply, ThreadNo};
use std::alloc::Global;
use std::marker::Model;

/// The states of all kinds.
#[derive(Drop)]
enum Inner {
    Mutex(MutexState),
    Shared(SharedState),
    Semaphore(SemaphoreState),
    Latch(LatchState),
    Barrier(BarrierState),
    Once(OnceState),
    Condition(ConditionState),
    Stop(StopState),
    Future(FutureState),
}

/// The state of an object, of whichever kind.
#[derive(Drop)]
pub struct State {
    inner: Inner,
}

impl Model for State {
    ghost use Rattle.cx_machine.specs.Machine.{State as AState};

    ghost Value = { AState };

    ghost use Rattle.cx_machine.specs.States.{state_of};

    ghost view = { λ s. state_of s.inner };
}

impl State {
    ghost use Rattle.std.specs.Prelude.{◌≡◌, Some, IfOk, OnErr, is_some};
    ghost use Rattle.cx_machine.specs.Words.{Applies};
    ghost use Rattle.cx_machine.specs.Machine.{opening, step, shows};
    ghost use Rattle.cx_machine.specs.Now.{reply_now, first_registered, is_completing};

    /// The opening state of an object of this kind. It fails only where memory runs out.
    pub fn opening(alloc: Global, kind: Kind) -> Result<State, NoMemory>
        ensures { IfOk result (λ s. s ≡ opening kind) }
    {
        let inner = match kind {
            Kind::Mutex { recursive, numbers } => {
                Inner::Mutex(MutexState::new(alloc, recursive, numbers)?)
            }
            Kind::Shared => Inner::Shared(SharedState::new(alloc)),
            Kind::Semaphore { count, max } => Inner::Semaphore(SemaphoreState::new(count, max)),
            Kind::Latch { count } => Inner::Latch(LatchState::new(count)),
            Kind::Barrier { count } => Inner::Barrier(BarrierState::new(count)),
            Kind::Once => Inner::Once(OnceState::new()),
            Kind::Condition => Inner::Condition(ConditionState::new(alloc)),
            Kind::Stop { sources } => Inner::Stop(StopState::new(alloc, sources)),
            Kind::Future => Inner::Future(FutureState::new()),
        };
        Ok(State { inner })
    }

    /// Makes the change where the machine enables it, and answers whether it does. Where it
    /// doesn't, and where memory runs out, the state is as it was.
    pub fn apply(&mut self, e: &Entry) -> Result<bool, NoMemory>
        ensures made { IfOk result (λ made. Applies made (step self.old e.now) self.old self.new) }
        ensures err { OnErr result (self.new ≡ self.old) }
    {
        let a = small(e.a);
        match &mut self.inner {
            Inner::Mutex(m) => Ok(m.apply(e.by, e.op, a, e.b, e.reply)),
            Inner::Shared(s) => s.apply(e.by, e.op, a, e.b, e.reply),
            Inner::Semaphore(s) => Ok(s.apply(e.by, e.op, a, e.b, e.reply)),
            Inner::Latch(l) => Ok(l.apply(e.by, e.op, a, e.b, e.reply)),
            Inner::Barrier(b) => Ok(b.apply(e.by, e.op, a, e.b, e.reply)),
            Inner::Once(o) => Ok(o.apply(e.by, e.op, a, e.b, e.reply)),
            Inner::Condition(c) => c.apply(e.by, e.op, a, e.b, e.reply),
            Inner::Stop(s) => s.apply(e.by, e.op, a, e.b, e.reply),
            Inner::Future(f) => Ok(f.apply(e.by, e.op, a, e.b, e.reply)),
        }
    }

    /// Whether the machine enables this change now, so that `apply` would make it, memory allowing.
    /// Nothing is changed, and no memory is taken.
    pub fn enables(&self, e: &Entry) -> bool
        ensures { result ≡ is_some (step self.now e.now) }
    {
        let a = small(e.a);
        match &self.inner {
            Inner::Mutex(m) => m.enables(e.by, e.op, a, e.b, e.reply),
            Inner::Shared(s) => s.enables(e.by, e.op, a, e.b, e.reply),
            Inner::Semaphore(s) => s.enables(e.by, e.op, a, e.b, e.reply),
            Inner::Latch(l) => l.enables(e.by, e.op, a, e.b, e.reply),
            Inner::Barrier(b) => b.enables(e.by, e.op, a, e.b, e.reply),
            Inner::Once(o) => o.enables(e.by, e.op, a, e.b, e.reply),
            Inner::Condition(c) => c.enables(e.by, e.op, a, e.b, e.reply),
            Inner::Stop(s) => s.enables(e.by, e.op, a, e.b, e.reply),
            Inner::Future(f) => f.enables(e.by, e.op, a, e.b, e.reply),
        }
    }

    /// Whether the machine shows this look now. Its stamp isn't looked at.
    pub fn shows(&self, l: &Look) -> bool
        ensures { result ≡ shows self.now l.now }
    {
        let a = small(l.a);
        match &self.inner {
            Inner::Mutex(m) => m.shows(l.by, l.op, a, l.b, l.reply),
            Inner::Shared(s) => s.shows(l.by, l.op, a, l.b, l.reply),
            Inner::Semaphore(s) => s.shows(l.by, l.op, a, l.b, l.reply),
            Inner::Latch(x) => x.shows(l.by, l.op, a, l.b, l.reply),
            Inner::Barrier(b) => b.shows(l.by, l.op, a, l.b, l.reply),
            Inner::Once(o) => o.shows(l.by, l.op, a, l.b, l.reply),
            Inner::Condition(c) => c.shows(l.by, l.op, a, l.b, l.reply),
            Inner::Stop(s) => s.shows(l.by, l.op, a, l.b, l.reply),
            Inner::Future(f) => f.shows(l.by, l.op, a, l.b, l.reply),
        }
    }

    /// The reply that the machine gives now to an act by this thread, with this word and these
    /// arguments, where the words leave it open; else `ok`.
    pub fn reply_now(&self, by: ThreadNo, op: Op, a: i64, b: i64) -> Reply
        ensures { result ≡ reply_now self.now by.0 op a b }
    {
        match &self.inner {
            Inner::Mutex(m) => m.reply_now(by, op, small(a), b),
            Inner::Barrier(x) => Reply::Number(x.phase() as i64),
            Inner::Condition(c) => c.reply_now(op),
            Inner::Future(f) => f.outcome_now(),
            _ => Reply::Ok,
        }
    }

    /// The ID of the callback that was registered first, of those that are registered: none where
    /// none is, or the object is no stop state.
    pub fn first_registered(&self) -> Option<u32>
        ensures { result ≡ first_registered (Some self.now) }
    {
        match &self.inner {
            Inner::Stop(s) => s.first_registered(),
            _ => None,
        }
    }

    /// Whether the object is a barrier that a thread is to complete.
    pub fn is_completing(&self) -> bool
        ensures { result ≡ is_completing (Some self.now) }
    {
        match &self.inner {
            Inner::Barrier(b) => b.is_completing(),
            _ => false,
        }
    }
}
