//! What a thread has of one object, of whichever kind. Here alone the kinds are listed.
ghost use Rattle.std.specs.Prelude.{◌≡◌, ◌≤◌, true, IfOk};
ghost use Rattle.cx_machine.specs.Machine.{opening};
ghost use Rattle.cx_scene.specs.Scene.{kind_of};
ghost use Rattle.cx_items.specs.Memory.{nothing};
ghost use Rattle.cx_asks.specs.Scenes.{count_of};
ghost use Rattle.cx_kinds.specs.Acts.{IsKeptBy};
ghost use Rattle.cx_kinds.specs.Sights.{IsNew, IsSeen, Keeps, IsFreed, IsFree, IsEnded, IsIdle, IsCompleting, Acted, Served, Stays, Met, Joined, MaySplit, SplitInto};
ghost use Rattle.cx_kinds.specs.Accesses.{Knows, object_of, kept_of, begun_of, Serves, IsOf, is_made};

use crate::barrier::phased;
use crate::latch::falling;
use crate::mutex::plain;
use crate::once::uncalled;
use crate::recursive::recursive;
use crate::seat::Seat;
use crate::semaphore::counting;
use crate::shared_mutex::sharable;
use cx_asks::Ask;
use cx_barrier::Barrier;
use cx_items::Item;
use cx_mutex::{Mutex, RecursiveMutex};
use cx_names::{NoMemory, ObjectNo};
use cx_scene::Object;
use cx_shared_mutex::SharedMutex;
use cx_sync::{Latch, OnceFlag, Semaphore};
use std::alloc::Global;
use std::sync::Wait;

/// What a thread has of one object.
#[derive(Drop)]
pub enum Access {
    /// Of a plain mutex [thread.mutex.class].
    Mutex(Seat<Mutex>),
    /// Of a recursive mutex [thread.mutex.recursive].
    Recursive(Seat<RecursiveMutex>),
    /// Of a shared mutex [thread.sharedmutex.class].
    SharedMutex(Seat<SharedMutex>),
    /// Of a semaphore [thread.sema.cnt].
    Semaphore(Seat<Semaphore>),
    /// Of a latch [thread.latch.class].
    Latch(Seat<Latch>),
    /// Of a barrier [thread.barrier.class].
    Barrier(Seat<Barrier>),
    /// Of a once flag [thread.once.onceflag].
    Once(Seat<OnceFlag>),
}

/// An object of this declaration for 1 to 64 threads, and main's access to it. NoMemory where there is no
/// room for the object.
pub fn made(alloc: Global, object: &Object, threads: u32) -> Result<Access, NoMemory>
    requires now { is_made object.now ≡ true }
    requires threads { (1 ≤ threads) × (threads ≤ 64) }
    ensures new { IfOk result (λ r. IsNew threads (opening (kind_of object.now)) (count_of object.now) (Knows r)) }
    ensures object { IfOk result (λ r. IsOf object.now (object_of r)) }
    ensures free { IfOk result (λ r. kept_of r ≡ nothing) }
{
    match object {
        Object::Mutex { numbers } => Ok(Access::Mutex(plain(alloc, *numbers, threads)?)),
        Object::Recursive => Ok(Access::Recursive(recursive(alloc, threads)?)),
        Object::Shared => Ok(Access::SharedMutex(sharable(alloc, threads)?)),
        Object::Semaphore { count, max } => Ok(Access::Semaphore(counting(
            alloc, *count, *max, threads,
        )?)),
        Object::Latch { count } => Ok(Access::Latch(falling(alloc, *count, threads)?)),
        Object::Barrier { count, .. } => Ok(Access::Barrier(phased(alloc, *count, threads)?)),
        Object::Once => Ok(Access::Once(uncalled(alloc, threads)?)),
        _ => unreachable!(),
    }
}

impl Access {
    /// Does what is asked of the object, which has number `o`. Waits until its state allows it. None where it
    /// can't be asked.
    pub fn act<R: Wait>(&mut self, rt: &R, o: ObjectNo, ask: Ask) -> Option<Item>
        requires seen { IsSeen (Knows self.old) }
        ensures object { object_of self.new ≡ object_of self.old }
        ensures did { Acted o ask (Knows self.old) (Knows self.new) result }
        ensures kept { IsKeptBy (kept_of self.old) result (kept_of self.new) }
        ensures served { Served (Knows self.old) (λ share. Serves self.old share ask) result }
    {
        match self {
            Access::Mutex(seat) => seat.act(rt, o, ask),
            Access::Recursive(seat) => seat.act(rt, o, ask),
            Access::SharedMutex(seat) => seat.act(rt, o, ask),
            Access::Semaphore(seat) => seat.act(rt, o, ask),
            Access::Latch(seat) => seat.act(rt, o, ask),
            Access::Barrier(seat) => seat.act(rt, o, ask),
            Access::Once(seat) => seat.act(rt, o, ask),
        }
    }

    /// Gives back what the thread holds of the object, and ends what it has begun, without an item. All of it,
    /// where as many changes are left as that takes; else as much as they suffice for.
    pub fn give_up<R: Wait>(&mut self, rt: &R)
        requires seen { IsSeen (Knows self.old) }
        ensures object { object_of self.new ≡ object_of self.old }
        ensures seen { Keeps (Knows self.old) (Knows self.new) }
        ensures freed { IsFreed (Knows self.old) (kept_of self.old) (kept_of self.new) }
        ensures free { IsFree (Knows self.new) (kept_of self.new) }
        ensures ended { IsEnded (Knows self.old) (kept_of self.old) (begun_of self.old) (begun_of self.new) }
        ensures idle { IsIdle (Knows self.new) (begun_of self.new) }
    {
        match self {
            Access::Mutex(seat) => seat.give_up(rt),
            Access::Recursive(seat) => seat.give_up(rt),
            Access::SharedMutex(seat) => seat.give_up(rt),
            Access::Semaphore(seat) => seat.give_up(rt),
            Access::Latch(seat) => seat.give_up(rt),
            Access::Barrier(seat) => seat.give_up(rt),
            Access::Once(seat) => seat.give_up(rt),
        }
    }

    /// Whether a completion by the thread is due after the history that it has seen [thread.barrier.class].
    pub fn is_completing(&self) -> bool
        requires seen { IsSeen (Knows self.now) }
        ensures { IsCompleting (Knows self.now) result }
    {
        match self {
            Access::Mutex(seat) => seat.is_completing(),
            Access::Recursive(seat) => seat.is_completing(),
            Access::SharedMutex(seat) => seat.is_completing(),
            Access::Semaphore(seat) => seat.is_completing(),
            Access::Latch(seat) => seat.is_completing(),
            Access::Barrier(seat) => seat.is_completing(),
            Access::Once(seat) => seat.is_completing(),
        }
    }

    /// Lets `other`, of the same object, see what this thread has seen of it.
    pub fn meet(&mut self, other: &mut Access)
        requires same { object_of other.old ≡ object_of self.old }
        requires seen { IsSeen (Knows self.old) }
        requires other { IsSeen (Knows other.old) }
        ensures objects { (object_of self.new ≡ object_of self.old) × (object_of other.new ≡ object_of other.old) }
        ensures kept { (kept_of self.new ≡ kept_of self.old) × (kept_of other.new ≡ kept_of other.old) }
        ensures from { Stays (Knows self.old) (Knows self.new) }
        ensures to { Met (Knows self.old) (Knows other.old) (Knows other.new) }
    {
        match self {
            Access::Mutex(seat) => match other {
                Access::Mutex(other) => seat.meet(other),
                _ => unreachable!(),
            },
            Access::Recursive(seat) => match other {
                Access::Recursive(other) => seat.meet(other),
                _ => unreachable!(),
            },
            Access::SharedMutex(seat) => match other {
                Access::SharedMutex(other) => seat.meet(other),
                _ => unreachable!(),
            },
            Access::Semaphore(seat) => match other {
                Access::Semaphore(other) => seat.meet(other),
                _ => unreachable!(),
            },
            Access::Latch(seat) => match other {
                Access::Latch(other) => seat.meet(other),
                _ => unreachable!(),
            },
            Access::Barrier(seat) => match other {
                Access::Barrier(other) => seat.meet(other),
                _ => unreachable!(),
            },
            Access::Once(seat) => match other {
                Access::Once(other) => seat.meet(other),
                _ => unreachable!(),
            },
        }
    }

    /// Takes another thread's access of the same object in.
    pub fn join(&mut self, other: Access)
        requires same { object_of other ≡ object_of self.old }
        requires seen { IsSeen (Knows self.old) }
        requires other { IsSeen (Knows other) }
        ensures object { object_of self.new ≡ object_of self.old }
        ensures kept { kept_of self.new ≡ kept_of self.old }
        ensures seen { Joined (Knows other) (Knows self.old) (Knows self.new) }
    {
        match self {
            Access::Mutex(seat) => match other {
                Access::Mutex(other) => seat.join(other),
                _ => unreachable!(),
            },
            Access::Recursive(seat) => match other {
                Access::Recursive(other) => seat.join(other),
                _ => unreachable!(),
            },
            Access::SharedMutex(seat) => match other {
                Access::SharedMutex(other) => seat.join(other),
                _ => unreachable!(),
            },
            Access::Semaphore(seat) => match other {
                Access::Semaphore(other) => seat.join(other),
                _ => unreachable!(),
            },
            Access::Latch(seat) => match other {
                Access::Latch(other) => seat.join(other),
                _ => unreachable!(),
            },
            Access::Barrier(seat) => match other {
                Access::Barrier(other) => seat.join(other),
                _ => unreachable!(),
            },
            Access::Once(seat) => match other {
                Access::Once(other) => seat.join(other),
                _ => unreachable!(),
            },
        }
    }

    /// An access for the next thread, split off main's, which holds nothing. It gets `most` of main's share,
    /// or all where that is less.
    pub fn split(&mut self, calls: u32, most: u32) -> Result<Access, NoMemory>
        requires seen { IsSeen (Knows self.old) }
        requires room { MaySplit calls (Knows self.old) }
        requires free { kept_of self.old ≡ nothing }
        ensures object { object_of self.new ≡ object_of self.old }
        ensures same { IfOk result (λ r. object_of r ≡ object_of self.old) }
        ensures split { IfOk result (λ r. SplitInto calls most (Knows self.old) (Knows self.new) (Knows r)) }
        ensures free { IfOk result (λ r. (kept_of self.new ≡ nothing) × (kept_of r ≡ nothing)) }
    {
        match self {
            Access::Mutex(seat) => Ok(Access::Mutex(seat.split(calls, most)?)),
            Access::Recursive(seat) => Ok(Access::Recursive(seat.split(calls, most)?)),
            Access::SharedMutex(seat) => Ok(Access::SharedMutex(seat.split(calls, most)?)),
            Access::Semaphore(seat) => Ok(Access::Semaphore(seat.split(calls, most)?)),
            Access::Latch(seat) => Ok(Access::Latch(seat.split_share(calls, most)?)),
            Access::Barrier(seat) => Ok(Access::Barrier(seat.split(calls, most)?)),
            Access::Once(seat) => Ok(Access::Once(seat.split(calls, most)?)),
        }
    }
}
