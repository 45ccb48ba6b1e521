//! Several mutexes at once [thread.lock.algorithm].
ghost use Rattle.std.specs.Prelude.{◌≡◌, ◌≢◌, ◌<◌, ◌≤◌, ◌+◌, ◌-◌, ◌*◌, ℕ, List, length, map, drop, slice_get, Option, Some, None, IfSome, IfNone, IfOk, IfErr};
ghost use Rattle.cx_mutex.specs.Together.{hold_at, turned, IsNamed, AreDistinct, AreReady, Gets, Missed, Went, LockedAfter, BackedOff, OthersKept, AreHeld, AreFree, NoneBeyond, HaveLess, two_before};
ghost use Rattle.cx_mutex.specs.Trying.{TakenFrom, MissedFrom, HoldsKept, RoundLocks, RoundBacksOff, RoundFree};

use crate::mutex::{Hold, Mutex, MutexPass, Tried};
use cx_names::{TURNS, Turns};
use std::sync::Wait;

/// The holds of two to four mutexes, in the order in which these were named.
#[derive(Drop, Debug, PartialEq, Eq)]
pub struct Holds {
    pub a: Option<Hold>,
    pub b: Option<Hold>,
    pub c: Option<Hold>,
    pub d: Option<Hold>,
}

/// The caller has no turn left to begin again with.
#[derive(Clone, Copy, Debug, PartialEq, Eq)]
pub struct Spent;

impl Holds {
    fn none() -> Holds
        ensures { (p : ℕ) → hold_at result p ≡ None }
    {
        Holds {
            a: None,
            b: None,
            c: None,
            d: None,
        }
    }

    fn put(&mut self, place: usize, hold: Hold)
        requires { place < 4 }
        ensures here { hold_at self.new place ≡ Some hold }
        ensures others { (p : ℕ) → p ≢ place → hold_at self.new p ≡ hold_at self.old p }
    {
        match place {
            0 => self.a = Some(hold),
            1 => self.b = Some(hold),
            2 => self.c = Some(hold),
            _ => self.d = Some(hold),
        }
    }
}

// The place that comes so many places after the first, in cyclic order.
fn place_after(which: &[usize], start: usize, steps: usize) -> usize
    requires { (start < length which.now) × (steps < length which.now) }
    ensures within { result < length which.now }
    ensures named { slice_get which.now result ≡ slice_get (turned start which.now) steps }
{
    let to_end = which.len() - start;
    if steps < to_end {
        start + steps
    } else {
        steps - to_end
    }
}

// Tries to lock those that come so many places after the first and later, in cyclic order. Where one of
// them has an owner, those that were locked are unlocked, the last first, and its place is given.
fn try_from<R: Wait>(
    rt: &R,
    all: &[Mutex],
    which: &[usize],
    passes: &mut [MutexPass],
    start: usize,
    steps: usize,
    holds: &mut Holds,
) -> Option<usize>
    requires places { (start < length which.now) × (steps ≤ length which.now) × (length which.now ≤ 4) }
    requires distinct { AreDistinct which.now }
    requires ready { AreReady all.now passes.old (turned start which.now) steps 2 }
    ensures locked { IfNone result (Went all.now passes.old passes.new (map Gets (drop steps (turned start which.now)))) }
    ensures missed { IfSome result (λ p. (p < length which.now) × MissedFrom all.now passes.old passes.new which.now start steps p) }
    ensures held { IfNone result (TakenFrom all.now passes.old passes.new which.now start steps holds.new) }
    ensures kept { HoldsKept which.now start steps holds.old holds.new }
    ensures others { OthersKept passes.old passes.new (turned start which.now) steps }
{
    if steps == which.len() {
        return None;
    }
    let place = place_after(which, start, steps);
    let i = which[place];
    match all[i].try_lock(rt, &mut passes[i]) {
        Tried::Not(_) => Some(place),
        Tried::Got(hold, _) => match try_from(rt, all, which, passes, start, steps + 1, holds) {
            None => {
                holds.put(place, hold);
                None
            }
            Some(owned) => {
                all[i].unlock(rt, &mut passes[i], hold);
                Some(owned)
            }
        },
    }
}

// A round of `lock_all`. Gives the place of the mutex that had an owner.
fn lock_round<R: Wait>(
    rt: &R,
    all: &[Mutex],
    which: &[usize],
    passes: &mut [MutexPass],
    start: usize,
) -> Result<Holds, usize>
    requires places { (start < length which.now) × (length which.now ≤ 4) }
    requires distinct { AreDistinct which.now }
    requires ready { AreReady all.now passes.old which.now 0 2 }
    ensures locked { IfOk result (λ h. RoundLocks all.now passes.old passes.new which.now start) }
    ensures backs_off { IfErr result (λ p. (p < length which.now) × RoundBacksOff all.now passes.old passes.new which.now start p) }
    ensures held { IfOk result (λ h. AreHeld all.now passes.new which.now h × NoneBeyond which.now h) }
    ensures free { IfErr result (λ p. RoundFree all.now passes.old passes.new which.now) }
    ensures others { OthersKept passes.old passes.new which.now 0 }
{
    let mut holds = Holds::none();
    let first = which[start];
    let (hold, _) = all[first].lock(rt, &mut passes[first]);
    match try_from(rt, all, which, passes, start, 1, &mut holds) {
        None => {
            holds.put(start, hold);
            Ok(holds)
        }
        Some(owned) => {
            all[first].unlock(rt, &mut passes[first], hold);
            Err(owned)
        }
    }
}

/// Tries to lock the mutexes with the indexes in `which`, in this order, and gives their holds.
///
/// There are two to four indexes, none twice, each of a mutex in `all` and of its pass in `passes`,
/// which doesn't own it and has two changes left.
///
/// Returns the place in `which`, from 0, of the first mutex that had an owner. Those before it were
/// locked and then unlocked, the last first, so nothing is held, and those after it weren't tried.
pub fn try_lock_all<R: Wait>(
    rt: &R,
    all: &[Mutex],
    which: &[usize],
    passes: &mut [MutexPass],
) -> Result<Holds, usize>
    requires places { (2 ≤ length which.now) × (length which.now ≤ 4) }
    requires distinct { AreDistinct which.now }
    requires ready { AreReady all.now passes.old which.now 0 2 }
    ensures locked { IfOk result (λ h. Went all.now passes.old passes.new (map Gets which.now)) }
    ensures missed { IfErr result (λ p. Missed all.now passes.old passes.new which.now p) }
    ensures held { IfOk result (λ h. AreHeld all.now passes.new which.now h × NoneBeyond which.now h) }
    ensures free { IfErr result (λ p. AreFree all.now passes.new which.now) }
    ensures locked_left { IfOk result (λ h. HaveLess passes.old passes.new which.now (λ p. 1)) }
    ensures missed_left { IfErr result (λ p. HaveLess passes.old passes.new which.now (two_before p)) }
    ensures others { OthersKept passes.old passes.new which.now 0 }
{
    let mut holds = Holds::none();
    match try_from(rt, all, which, passes, 0, 0, &mut holds) {
        None => Ok(holds),
        Some(owned) => Err(owned),
    }
}

/// Locks the mutexes with the indexes in `which`, and gives their holds. Waits.
///
/// There are two to four indexes, none twice, each of a mutex in `all` and of its pass in `passes`,
/// which doesn't own it and has two changes left for each turn to be had and two more.
///
/// It waits for the first, and tries the others in cyclic order. Where one has an owner it unlocks what
/// it has locked, the last first, takes a turn, and begins again with that one.
///
/// Returns Spent where it would begin again and `TURNS` turns are taken. Then nothing is held.
pub fn lock_all<R: Wait>(
    rt: &R,
    all: &[Mutex],
    which: &[usize],
    passes: &mut [MutexPass],
    turns: &mut Turns,
) -> Result<Holds, Spent>
    requires places { (2 ≤ length which.now) × (length which.now ≤ 4) }
    requires distinct { AreDistinct which.now }
    requires turns { turns.old.used ≤ 16384 }
    requires ready { AreReady all.now passes.old which.now 0 (2 * (16384 - turns.old.used) + 2) }
    ensures turns { (turns.old.used ≤ turns.new.used) × (turns.new.used ≤ 16384) }
    ensures locked { IfOk result (λ h. LockedAfter all.now passes.old passes.new which.now (turns.new.used - turns.old.used)) }
    ensures spent { IfErr result (λ e. (turns.new.used ≡ 16384) × BackedOff all.now passes.old passes.new which.now (16384 - turns.old.used + 1)) }
    ensures held { IfOk result (λ h. AreHeld all.now passes.new which.now h × NoneBeyond which.now h) }
    ensures free { IfErr result (λ e. AreFree all.now passes.new which.now) }
    ensures others { OthersKept passes.old passes.new which.now 0 }
{
    let mut start = 0;
    for _turn in turns.used..TURNS {
        match lock_round(rt, all, which, passes, start) {
            Ok(holds) => return Ok(holds),
            Err(owned) => {
                turns.used += 1;
                start = owned;
            }
        }
    }
    match lock_round(rt, all, which, passes, start) {
        Ok(holds) => Ok(holds),
        Err(_) => Err(Spent),
    }
}
