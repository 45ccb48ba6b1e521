ghost use Rattle.std.specs.Prelude.{◌≡◌, ℕ, ◌<◌, ◌≤◌, ◌+◌, ◌*◌, ◌^◌, ◌++◌, ◌∷◌, [], Bool, true, IfOk, OnOk, length, slice_get, Some, nat_lt, slice_index};
ghost use Rattle.std.specs.List.Sorted.{IsNonDecreasingBy, IsPermutation};
ghost use Rattle.cx_scene.specs.Scene.{Scene};
ghost use Rattle.cx_history.specs.Histories.{Recorded};
ghost use Rattle.cx_order.specs.Order.{before_in};
ghost use Rattle.cx_races.specs.declared.access.Access.{Access as AccessSeen};
ghost use Rattle.cx_races.specs.Sheets.{class_of, lane_of, rank_of, IsSmall, AreSmall, AreOf, NoneRaces, NoneOfLane, AreFrom, AreBelow, is_over};

use crate::access::Access;
use crate::racing::access_at;
use cx_names::{NoMemory, ThreadNo};
use cx_order::{Clock, Order};
use std::alloc::Global;

/// Accesses in order of variable, writes before reads, thread and point.
#[derive(Drop)]
pub(crate) struct Sheet {
    pub accesses: Vec<Access>,

    ghost rising: { IsNonDecreasingBy rank_of accesses.items },
    ghost small: { AreSmall accesses.items },
}

/// The number of a variable's writes, or of its reads.
fn class(var: u32, write: bool) -> u128
    ensures value { result ≡ class_of var write }
    ensures small { result < 2 ^ 33 }
{
    if write {
        var as u128 * 2
    } else {
        var as u128 * 2 + 1
    }
}

impl Access {
    /// The number of its lane.
    fn lane(self) -> u128
        ensures value { result ≡ lane_of self }
        ensures small { result < 2 ^ 66 }
        ensures numbers { IsSmall self }
    {
        class(self.var, self.write) * 4_294_967_296 + self.thread.0 as u128
    }

    /// Where it stands in order of lane and point.
    fn rank(self) -> u128
        ensures { result ≡ rank_of self }
    {
        self.lane() * 4_294_967_296 + self.point as u128
    }
}

/// Puts an access behind others.
fn put(accesses: &mut Vec<Access>, a: Access) -> Result<(), NoMemory>
    ensures put { OnOk result (accesses.new.items ≡ accesses.old.items ++ a ∷ []) }
    ensures small { IsSmall a }
{
    accesses.push(a)?;
    Ok(())
}

/// A copy of accesses.
fn copied(alloc: Global, accesses: &[Access]) -> Result<Vec<Access>, NoMemory>
    ensures same { IfOk result (λ v. v.items ≡ accesses.now) }
    ensures small { IfOk result (λ v. AreSmall v.items) }
{
    let mut copy = Vec::new(alloc);
    for i in 0..accesses.len() {
        let a = access_at(accesses, i);
        put(&mut copy, a)?;
    }
    Ok(copy)
}

/// What a clock says of this node.
fn value_at(clock: &Clock, node: usize) -> u32
    ensures { (i : ℕ) → nat_lt i (slice_index clock.now.values.items node) ≡ nat_lt i result }
{
    match clock.values.get(node) {
        None => 0,
        Some(value) => *value,
    }
}

/// How many points of thread `u` reach the point of an access.
fn reached(order: &Order, u: ThreadNo, a: Access) -> u32
    ensures { (i : ℕ) → before_in order.now u.0 i a.thread.0 a.point ≡ nat_lt i result }
{
    match order.firsts.get(a.thread.0 as usize) {
        None => 0,
        Some(first) => match order.clocks.get(u.0 as usize) {
            None => 0,
            Some(clock) => value_at(clock, *first as usize + a.point as usize),
        },
    }
}

/// Whether no access of a rank at or above that of `x` can race with `a`, where none of those is of an earlier variable.
fn is_over(a: Access, x: Access) -> bool
    ensures { result ≡ is_over a x }
{
    x.var != a.var || !(a.write || x.write)
}

impl Sheet {
    /// These accesses in order.
    ///
    /// Errors: no memory.
    pub fn of(alloc: Global, accesses: &[Access]) -> Result<Sheet, NoMemory>
        ensures { IfOk result (λ s. IsPermutation accesses.now s.accesses.items) }
    {
        let mut sorted = copied(alloc, accesses)?;
        sorted.sort_by_key(|a| a.rank())?;
        Ok(Sheet { accesses: sorted })
    }

    /// How many accesses have a rank below this one.
    fn below(&self, rank: u128) -> usize
        ensures within { result ≤ length self.now.accesses.items }
        ensures low { AreBelow self.now.accesses.items result rank }
        ensures high { AreFrom self.now.accesses.items result rank }
    {
        self.accesses.partition_point(|a| a.rank() < rank)
    }

    /// The access at this place.
    fn at(&self, place: usize) -> Access
        requires { place < length self.now.accesses.items }
        ensures { slice_get self.now.accesses.items place ≡ Some result }
    {
        self.accesses[place]
    }

    /// Whether the access at this place, if it is in the lane of `x`, is one that `a` reaches.
    fn is_reached(&self, order: &Order, a: Access, x: Access, place: usize) -> bool
        ensures { result ≡ true → (y : AccessSeen) → slice_get self.now.accesses.items place ≡ Some y → lane_of y ≡ lane_of x → before_in order.now a.thread.0 a.point y.thread.0 y.point ≡ true }
    {
        match self.accesses.get(place) {
            None => true,
            Some(y) => {
                let next = *y;
                next.lane() != x.lane() || order.before(a.thread, a.point, next.thread, next.point)
            }
        }
    }

    /// Whether each access in the lane of `x` reaches `a` or is reached by it: those that reach it come first, and of the others the first is the
    /// one that `a` reaches last.
    fn orders_lane(&self, order: &Order, a: Access, x: Access) -> bool
        ensures { result ≡ true → (s : Scene) (r : Recorded) → AreOf s r order.now a self.now.accesses.items → NoneOfLane s r self.now.accesses.items a x }
    {
        let count = reached(order, x.thread, a);
        let place = self.below(x.lane() * 4_294_967_296 + count as u128);
        self.is_reached(order, a, x, place)
    }

    /// Whether no access in the lane of `x` races with `a`.
    fn is_lane_free(&self, order: &Order, a: Access, x: Access) -> bool
        ensures { result ≡ true → (s : Scene) (r : Recorded) → AreOf s r order.now a self.now.accesses.items → NoneOfLane s r self.now.accesses.items a x }
    {
        let own = a.thread.0 == x.thread.0;
        if own {
            true
        } else {
            self.orders_lane(order, a, x)
        }
    }

    /// Whether no access races with `a`, which is found lane by lane.
    pub fn is_free(&self, order: &Order, a: Access) -> bool
        ensures { result ≡ true → (s : Scene) (r : Recorded) → AreOf s r order.now a self.now.accesses.items → NoneRaces s r self.now.accesses.items a }
    {
        let mut place = self.below(class(a.var, true) * 18_446_744_073_709_551_616);
        while place < self.accesses.len() {
            let x = self.at(place);
            let over = is_over(a, x);
            if over {
                return true;
            }
            let free = self.is_lane_free(order, a, x);
            if !free {
                return false;
            }
            place = self.below((x.lane() + 1) * 4_294_967_296);
        }
        true
    }
}
