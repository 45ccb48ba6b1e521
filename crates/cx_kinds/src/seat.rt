//! What a thread has of one object.
ghost use Rattle.std.specs.Prelude.{◌≡◌, ℕ, IfOk};
ghost use Rattle.std.specs.Arc.{arc_value};
ghost use Rattle.cx_turn.specs.declared.view.View.{View};
ghost use Rattle.cx_items.specs.Memory.{nothing};
ghost use Rattle.cx_kinds.specs.AnyKind.{erase};
ghost use Rattle.cx_kinds.specs.Acts.{IsItemOf, IsKeptBy};
ghost use Rattle.cx_kinds.specs.Seats.{KnowsSeat};
ghost use Rattle.cx_kinds.specs.Sights.{IsSeen, Keeps, IsFreed, IsFree, IsEnded, IsIdle, IsCompleting, Acted, Served, Stays, Met, Joined, MaySplit, SplitInto};

use crate::shared::{Pooled, Shared};
use crossbeam_utils::CachePadded;
use cx_asks::Ask;
use cx_items::Item;
use cx_machine::{Entry, Look};
use cx_names::{NoMemory, ObjectNo, ThreadNo};
use cx_turn::Either;
use std::alloc::Global;
use std::sync::{Arc, Wait};

/// What a thread has of one object: the object, which threads share, and its own token.
#[derive(Drop)]
pub struct Seat<X: Shared> {
    pub object: Arc<CachePadded<X>, Global>,
    pub token: X::Token,
}

/// The item of a change or a look that was made of this ask, of object `o`. None where it wasn't asked.
fn item_of(o: ObjectNo, by: ThreadNo, ask: Ask, done: Either) -> Option<Item>
    ensures { IsItemOf o by ask done result }
{
    let Ask { change, look, a, b } = ask;
    match done {
        Either::Made(reply, at) => {
            let op = change?;
            let entry = Entry {
                by,
                op,
                a,
                b,
                reply,
            };
            Some(Item::Change(o, at, entry))
        }
        Either::Seen(reply, at) => {
            let op = look?;
            let look = Look {
                by,
                op,
                a,
                b,
                reply,
                at,
            };
            Some(Item::Look(o, look))
        }
    }
}

/// A seat of this token at this object, which threads share from now on.
pub(crate) fn seated<X: Shared>(
    alloc: Global,
    object: X,
    token: X::Token,
) -> Result<Seat<X>, NoMemory>
    ensures token { IfOk result (λ s. s.token ≡ token) }
    ensures seen { IfOk result (λ s. (v : View X.M) → X.knows object token v → KnowsSeat X.knows X.share X.start X.as_any s (erase X.as_any v)) }
{
    let object = Arc::new(alloc, CachePadded::new(object))?;
    Ok(Seat { object, token })
}

impl<X: Shared> Seat<X> {
    /// Does what is asked of the object, which has number `o`. Waits until its state allows it. None where it
    /// can't be asked.
    pub fn act<R: Wait>(&mut self, rt: &R, o: ObjectNo, ask: Ask) -> Option<Item>
        requires seen { IsSeen (KnowsSeat X.knows X.share X.start X.as_any self.old) }
        ensures object { self.new.object ≡ self.old.object }
        ensures did { Acted o ask (KnowsSeat X.knows X.share X.start X.as_any self.old) (KnowsSeat X.knows X.share X.start X.as_any self.new) result }
        ensures kept { IsKeptBy (X.kept self.old.token) result (X.kept self.new.token) }
        ensures served { Served (KnowsSeat X.knows X.share X.start X.as_any self.old) (λ share. X.serves (X.kept self.old.token) share ask) result }
    {
        let by = X::number(&self.token);
        let done = self.object.act(rt, &mut self.token, ask)?;
        item_of(o, by, ask, done)
    }

    /// Gives back what the thread holds of the object, and ends what it has begun, without an item. All of it,
    /// where as many changes are left as that takes; else as much as they suffice for.
    pub fn give_up<R: Wait>(&mut self, rt: &R)
        requires seen { IsSeen (KnowsSeat X.knows X.share X.start X.as_any self.old) }
        ensures object { self.new.object ≡ self.old.object }
        ensures seen { Keeps (KnowsSeat X.knows X.share X.start X.as_any self.old) (KnowsSeat X.knows X.share X.start X.as_any self.new) }
        ensures freed { IsFreed (KnowsSeat X.knows X.share X.start X.as_any self.old) (X.kept self.old.token) (X.kept self.new.token) }
        ensures free { IsFree (KnowsSeat X.knows X.share X.start X.as_any self.new) (X.kept self.new.token) }
        ensures ended { IsEnded (KnowsSeat X.knows X.share X.start X.as_any self.old) (X.kept self.old.token) (X.begun self.old.token) (X.begun self.new.token) }
        ensures idle { IsIdle (KnowsSeat X.knows X.share X.start X.as_any self.new) (X.begun self.new.token) }
    {
        self.object.give_up(rt, &mut self.token);
    }

    /// Whether a completion by the thread is due after the history that it has seen.
    pub fn is_completing(&self) -> bool
        requires seen { IsSeen (KnowsSeat X.knows X.share X.start X.as_any self.now) }
        ensures { IsCompleting (KnowsSeat X.knows X.share X.start X.as_any self.now) result }
    {
        self.object.is_completing(&self.token)
    }

    /// Lets `other`, of the same object, see what this thread has seen of it.
    pub fn meet(&mut self, other: &mut Seat<X>)
        requires same { arc_value other.old.object ≡ arc_value self.old.object }
        requires seen { IsSeen (KnowsSeat X.knows X.share X.start X.as_any self.old) }
        requires other { IsSeen (KnowsSeat X.knows X.share X.start X.as_any other.old) }
        ensures objects { (self.new.object ≡ self.old.object) × (other.new.object ≡ other.old.object) }
        ensures kept { (X.kept self.new.token ≡ X.kept self.old.token) × (X.kept other.new.token ≡ X.kept other.old.token) }
        ensures from { Stays (KnowsSeat X.knows X.share X.start X.as_any self.old) (KnowsSeat X.knows X.share X.start X.as_any self.new) }
        ensures to { Met (KnowsSeat X.knows X.share X.start X.as_any self.old) (KnowsSeat X.knows X.share X.start X.as_any other.old) (KnowsSeat X.knows X.share X.start X.as_any other.new) }
    {
        self.object.meet(&mut self.token, &mut other.token);
    }

    /// Takes another thread's seat of the same object in.
    pub fn join(&mut self, other: Seat<X>)
        requires same { arc_value other.object ≡ arc_value self.old.object }
        requires seen { IsSeen (KnowsSeat X.knows X.share X.start X.as_any self.old) }
        requires other { IsSeen (KnowsSeat X.knows X.share X.start X.as_any other) }
        ensures object { self.new.object ≡ self.old.object }
        ensures kept { X.kept self.new.token ≡ X.kept self.old.token }
        ensures seen { Joined (KnowsSeat X.knows X.share X.start X.as_any other) (KnowsSeat X.knows X.share X.start X.as_any self.old) (KnowsSeat X.knows X.share X.start X.as_any self.new) }
    {
        self.object.join(&mut self.token, other.token);
    }

    /// A seat for the next thread, split off main's, which holds nothing, at an object that shares nothing
    /// out.
    pub fn split(&mut self, calls: u32, most: u32) -> Result<Seat<X>, NoMemory>
        requires seen { IsSeen (KnowsSeat X.knows X.share X.start X.as_any self.old) }
        requires room { MaySplit calls (KnowsSeat X.knows X.share X.start X.as_any self.old) }
        requires free { X.kept self.old.token ≡ nothing }
        requires whole { (m : X.M) → X.M.Meaning.pool m ≡ 0 }
        ensures object { self.new.object ≡ self.old.object }
        ensures same { IfOk result (λ r. arc_value r.object ≡ arc_value self.old.object) }
        ensures split { IfOk result (λ r. SplitInto calls most (KnowsSeat X.knows X.share X.start X.as_any self.old) (KnowsSeat X.knows X.share X.start X.as_any self.new) (KnowsSeat X.knows X.share X.start X.as_any r)) }
        ensures free { IfOk result (λ r. (X.kept self.new.token ≡ nothing) × (X.kept r.token ≡ nothing)) }
    {
        let object = Arc::try_clone(&self.object)?;
        let token = self.object.split(&mut self.token, calls);
        Ok(Seat { object, token })
    }
}

impl<X: Pooled> Seat<X> {
    /// A seat for the next thread, split off main's, which holds nothing. It gets `most` of main's share, or
    /// all where that is less.
    pub fn split_share(&mut self, calls: u32, most: u32) -> Result<Seat<X>, NoMemory>
        requires seen { IsSeen (KnowsSeat X.knows X.share X.start X.as_any self.old) }
        requires room { MaySplit calls (KnowsSeat X.knows X.share X.start X.as_any self.old) }
        requires free { X.kept self.old.token ≡ nothing }
        ensures object { self.new.object ≡ self.old.object }
        ensures same { IfOk result (λ r. arc_value r.object ≡ arc_value self.old.object) }
        ensures split { IfOk result (λ r. SplitInto calls most (KnowsSeat X.knows X.share X.start X.as_any self.old) (KnowsSeat X.knows X.share X.start X.as_any self.new) (KnowsSeat X.knows X.share X.start X.as_any r)) }
        ensures free { IfOk result (λ r. (X.kept self.new.token ≡ nothing) × (X.kept r.token ≡ nothing)) }
    {
        let object = Arc::try_clone(&self.object)?;
        let mut token = self.object.split(&mut self.token, calls);
        let share = most.min(X::share(&self.token));
        self.object.give(&mut self.token, &mut token, share);
        Ok(Seat { object, token })
    }
}
