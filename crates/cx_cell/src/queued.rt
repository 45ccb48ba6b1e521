//! A state with the queue of those who wait for it.
ghost use Rattle.std.specs.Prelude.{◌≡◌, ◌⊎◌, ◌<◌, ◌≤◌, ◌+◌, ℕ, length, slice_get, Some, None, IfSome, true, false};
ghost use Rattle.cx_cell.specs.Acts.{Denies};
ghost use Rattle.cx_cell.specs.Queue.{AreMarked, StandsIn, KeepsOthers, Calls, IsDue, HasDue, Marks, MarksAll, without};
ghost use Rattle.cx_cell.specs.declared.wish.Waiter.{Waiter};

use crate::called::Called;
use crate::offer::{Offer, offered};
use crate::wish::{Waiter, Wish};
use cx_machine::{Entry, Machine, Meaning, Op};
use cx_names::{NoMemory, Reply, ThreadNo};

/// A state, and beside it the queue of sleeping callers.
#[derive(Drop)]
pub struct Kept<S> {
    pub state: S,
    pub queue: Vec<Waiter>,
}

/// A state with its queue. It means what the state means.
///
/// Both stand behind one pointer, so that whoever takes or leaves the turn moves no more than that.
#[derive(Drop)]
pub struct Queued<S> {
    pub kept: Box<Kept<S>>,
}

// A state that is not reached by more callers than this has room for all.
pub(crate) const CALLERS: u32 = 256;

impl<M: Meaning, S: Machine<M>> Machine<M> for Queued<S> {
    ghost use Rattle.cx_cell.specs.Queue.{HasRoom};

    type Hand = S::Hand;

    ghost meaning = { λ q. S.meaning q.kept.value.state };

    ghost spare = { λ q. S.spare q.kept.value.state };

    ghost fits = { λ q. AreMarked M.Meaning (S.meaning q.kept.value.state) q.kept.value.queue.items × HasRoom M.Meaning (S.meaning q.kept.value.state) (S.spare q.kept.value.state) };

    ghost ready = { λ q h e. S.ready q.kept.value.state h e };

    ghost moves = { λ q h e r k. S.moves q.kept.value.state h e r.kept.value.state k };

    ghost alike = { λ q r. S.alike q.kept.value.state r.kept.value.state };

    fn reply(&self, by: ThreadNo, op: Op, a: i64, b: i64) -> Option<Reply> {
        self.kept.state.reply(by, op, a, b)
    }

    fn show(&self, by: ThreadNo, op: Op, a: i64, b: i64) -> Option<Reply> {
        self.kept.state.show(by, op, a, b)
    }

    fn make(&mut self, e: &Entry, hand: &mut Option<S::Hand>) {
        self.kept.state.make(e, hand);
    }

    fn reserve(&mut self, n: u32) -> Result<(), NoMemory> {
        self.kept.state.reserve(n)
    }

    fn most(&self, seats: u32) -> u32 {
        self.kept.state.most(seats)
    }

    fn pool(&self) -> u32 {
        self.kept.state.pool()
    }

    fn debt(&self) -> u32 {
        self.kept.state.debt()
    }

    ghost lives_on = { S.lives_on };

    ghost most_stays = { S.most_stays };

    ghost most_holds = { S.most_holds };

    ghost once_each = { λ q. S.once_each q.kept.value.state };
}

// Marks a waiter that isn't marked yet where the state allows its wish, and notes that it is to be
// woken. Out of line, since the queue is empty at most calls.
#[inline(never)]
fn mark_one<M: Meaning, S: Machine<M>>(state: &S, waiter: &mut Waiter, called: &mut Called)
    ensures marks { Marks M.Meaning (S.meaning state.now) waiter.old waiter.new }
    ensures called { Calls (IsDue M.Meaning (S.meaning state.now) waiter.old) called.old called.new }
{
    if waiter.woken {
        return;
    }
    match offered::<M, S>(state, waiter.seat, &waiter.wish) {
        Offer::Nothing => {}
        _ => {
            waiter.woken = true;
            called.add(waiter.seat);
        }
    }
}

// Marks each waiter whose wish the state allows.
fn mark<M: Meaning, S: Machine<M>>(state: &S, queue: &mut [Waiter], called: &mut Called)
    ensures marked { AreMarked M.Meaning (S.meaning state.now) queue.new }
    ensures marks { MarksAll M.Meaning (S.meaning state.now) queue.old queue.new }
    ensures called { Calls (HasDue M.Meaning (S.meaning state.now) queue.old) called.old called.new }
{
    for i in 0..queue.len() {
        mark_one::<M, S>(state, &mut queue[i], called);
    }
}

// Where the caller of this number stands in the queue.
fn place_of(queue: &[Waiter], seat: ThreadNo) -> Option<usize>
    ensures { IfSome result (λ i. (w : Waiter) × (slice_get queue.now i ≡ Some w) × (w.seat ≡ seat)) }
{
    for i in 0..queue.len() {
        if queue[i].seat == seat {
            return Some(i);
        }
    }
    None
}

// The caller of this number as it stands in the queue.
pub(crate) fn waiter_of(queue: &[Waiter], seat: ThreadNo) -> Option<Waiter>
    ensures { IfSome result (λ w. (w.seat ≡ seat) × StandsIn queue.now w) }
{
    let i = place_of(queue, seat)?;
    Some(queue[i])
}

// Takes the caller of this number out of the queue.
fn withdraw(queue: &mut Vec<Waiter>, seat: ThreadNo)
    ensures { queue.new.items ≡ without queue.old.items seat }
{
    queue.retain(|w| w.seat.0 != seat.0);
}

// The caller of this number waits no more, and all others whose wish the state allows are marked.
pub(crate) fn settle<M: Meaning, S: Machine<M>>(
    queued: &mut Queued<S>,
    seat: ThreadNo,
    called: &mut Called,
)
    ensures state { queued.new.kept.value.state ≡ queued.old.kept.value.state }
    ensures marked { AreMarked M.Meaning (S.meaning queued.new.kept.value.state) queued.new.kept.value.queue.items }
    ensures marks { MarksAll M.Meaning (S.meaning queued.new.kept.value.state) (without queued.old.kept.value.queue.items seat) queued.new.kept.value.queue.items }
    ensures called { Calls (HasDue M.Meaning (S.meaning queued.new.kept.value.state) (without queued.old.kept.value.queue.items seat)) called.old called.new }
{
    let kept = &mut *queued.kept;
    withdraw(&mut kept.queue, seat);
    mark::<M, S>(&kept.state, &mut kept.queue, called);
}

// Puts the caller into the queue, where it isn't marked. False where there is no memory for it.
fn enter(queue: &mut Vec<Waiter>, seat: ThreadNo, wish: &Wish) -> bool
    ensures queued { result ≡ true → StandsIn queue.new.items (record { seat = seat; wish = wish.now; woken = false }) }
    ensures others { KeepsOthers seat queue.old.items queue.new.items }
    ensures no_more { (w : Waiter) → StandsIn queue.new.items w → StandsIn queue.old.items w ⊎ (w ≡ record { seat = seat; wish = wish.now; woken = false }) }
    ensures refused { result ≡ false → queue.new.items ≡ queue.old.items }
{
    let waiter = Waiter {
        seat,
        wish: *wish,
        woken: false,
    };
    match place_of(queue, seat) {
        Some(i) => {
            queue[i] = waiter;
            true
        }
        None => queue.push(waiter).is_ok(),
    }
}

// The caller, whose wish the state denies, waits in the queue if it is to. Says whether it does.
pub(crate) fn put_off<M: Meaning, S: Machine<M>>(
    queued: &mut Queued<S>,
    seat: ThreadNo,
    wish: &Wish,
    waits: bool,
) -> bool
    requires marked { AreMarked M.Meaning (S.meaning queued.old.kept.value.state) queued.old.kept.value.queue.items }
    requires denied { Denies M.Meaning seat wish.now (S.meaning queued.old.kept.value.state) }
    ensures state { queued.new.kept.value.state ≡ queued.old.kept.value.state }
    ensures marked { AreMarked M.Meaning (S.meaning queued.new.kept.value.state) queued.new.kept.value.queue.items }
    ensures queued { result ≡ true → StandsIn queued.new.kept.value.queue.items (record { seat = seat; wish = wish.now; woken = false }) }
    ensures others { KeepsOthers seat queued.old.kept.value.queue.items queued.new.kept.value.queue.items }
    ensures no_more { (w : Waiter) → StandsIn queued.new.kept.value.queue.items w → StandsIn queued.old.kept.value.queue.items w ⊎ (w ≡ record { seat = seat; wish = wish.now; woken = false }) }
    ensures refused { result ≡ false → queued.new.kept.value.queue.items ≡ queued.old.kept.value.queue.items }
{
    let kept = &mut *queued.kept;
    waits && enter(&mut kept.queue, seat, wish)
}
