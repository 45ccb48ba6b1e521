//! What a taker holds.
ghost use Rattle.std.specs.Prelude.{◌≡◌, ◌+◌, ◌-◌, ◌^◌, ◌<◌, ◌≤◌, ℕ, length, IsSome, IsTrue, Some, None, IfOk, IfErr};
ghost use Rattle.cx_machine.specs.Meaning.{look_of};
ghost use Rattle.cx_turn.specs.Views.{with_change, with_look, cost_of};

use crate::pass::Pass;
use crate::steps::{Place, Top, count, leave, leave_with, see};
use cx_machine::{Entry, Look, Machine, Meaning, Op};
use cx_names::{NoMemory, Reply, ThreadNo};
use std::snapshot::Snapshot;

/// The state of a turn that a pass has taken. Each path must `leave`, or `leave_with` a change.
pub struct Held<'a, M: Meaning, S: Machine<M>> {
    pub(crate) top: &'a Top<M, S>,
    pub(crate) pass: &'a mut Pass<M>,
    pub(crate) place: Place<M, S>,
    pub(crate) number: ThreadNo,
    pub(crate) len: u32,
    pub(crate) left: u32,
    pub(crate) share: u32,
    pub(crate) splits: u32,
    pub(crate) state: S,
    pub(crate) hand: Option<S::Hand>,
}

/// A change that is made in the state and not counted yet. Nothing of it is there at run time.
#[derive(Drop)]
pub struct Made<S> {
    pub(crate) before: Snapshot<S>,
    pub(crate) entry: Snapshot<Entry>,
}

// What a change lowers `left` by, which moves the debt from one number to the other.
fn cost_between(debt: u32, then: u32) -> u32
    requires { then < 2 ^ 28 }
    ensures { result ≡ cost_of debt then }
{
    if then + 1 == debt {
        0
    } else {
        1 + then.saturating_sub(debt)
    }
}

// The share after a change that moves the pool from one number to the other.
fn share_between(share: u32, pool: u32, then: u32) -> u32
    requires { (share ≤ pool) × (pool ≤ share + then) }
    ensures { result ≡ (share + then) - pool }
{
    if then < pool {
        share - (pool - then)
    } else {
        share + (then - pool)
    }
}

impl<'a, M: Meaning, S: Machine<M>> Held<'a, M, S> {
    ghost use Rattle.cx_turn.specs.Passes.{IsHeld, IsMade, SamePlace, CanPay, IsLeft, IsLeftWith, held_front, held_view};

    /// The number of the pass.
    pub fn number(&self) -> ThreadNo
        ensures { result ≡ self.now.number }
    {
        self.number
    }

    /// The state, to which the whole history leads.
    pub fn state(&self) -> &S
        ensures { result.now ≡ self.now.state }
    {
        &self.state
    }

    /// Makes the change, and gives its position.
    pub fn change(&mut self, e: Entry) -> u32
        requires held { IsHeld S.meaning M.Meaning self.old }
        requires enabled { IsSome (M.step (S.meaning self.old.state) e) }
        requires own { e.by ≡ self.old.number }
        requires room { (after : M) → M.step (S.meaning self.old.state) e ≡ Some after → length (M.members after) ≤ length (M.members (S.meaning self.old.state)) + S.spare self.old.state }
        requires pays { (after : M) → M.step (S.meaning self.old.state) e ≡ Some after → CanPay M.Meaning (held_view self.old) e (S.meaning self.old.state) after }
        requires hand { S.ready self.old.state self.old.hand e }
        ensures same { SamePlace self.old self.new }
        ensures held { IsHeld S.meaning M.Meaning self.new }
        ensures step { M.step (S.meaning self.old.state) e ≡ Some (S.meaning self.new.state) }
        ensures view { held_view self.new ≡ with_change M.Meaning (held_view self.old) e (S.meaning self.old.state) (S.meaning self.new.state) }
        ensures room { length (M.members (S.meaning self.new.state)) + S.spare self.new.state ≡ length (M.members (S.meaning self.old.state)) + S.spare self.old.state }
        ensures hand { S.moves self.old.state self.old.hand e self.new.state self.new.hand }
        ensures position { result ≡ length (held_front self.old) }
    {
        let before = Snapshot::of(&self.state);
        let (debt, pool) = (self.state.debt(), self.state.pool());
        self.state.make(&e, &mut self.hand);
        let pool_then = self.state.pool();
        let at = count(self.top, &mut self.place, &before, &self.state, &e);
        let debt_then = self.state.debt();
        self.len = at + 1;
        self.left -= cost_between(debt, debt_then);
        self.share = share_between(self.share, pool, pool_then);
        at
    }

    /// Makes the change in the state, and counts it when the turn is given up: each path must then
    /// `leave_with` what this returns.
    pub fn make(&mut self, e: Entry) -> Made<S>
        requires held { IsHeld S.meaning M.Meaning self.old }
        requires enabled { IsSome (M.step (S.meaning self.old.state) e) }
        requires own { e.by ≡ self.old.number }
        requires room { (after : M) → M.step (S.meaning self.old.state) e ≡ Some after → length (M.members after) ≤ length (M.members (S.meaning self.old.state)) + S.spare self.old.state }
        requires pays { (after : M) → M.step (S.meaning self.old.state) e ≡ Some after → CanPay M.Meaning (held_view self.old) e (S.meaning self.old.state) after }
        requires hand { S.ready self.old.state self.old.hand e }
        ensures same { SamePlace self.old self.new × (held_view self.new ≡ held_view self.old) }
        ensures of { (result.before.value ≡ self.old.state) × (result.entry.value ≡ e) }
        ensures made { IsMade S.meaning M.Meaning self.new result }
        ensures room { length (M.members (S.meaning self.new.state)) + S.spare self.new.state ≡ length (M.members (S.meaning self.old.state)) + S.spare self.old.state }
        ensures hand { S.moves self.old.state self.old.hand e self.new.state self.new.hand }
    {
        let made = Made {
            before: Snapshot::of(&self.state),
            entry: Snapshot::of(&e),
        };
        let (debt, pool) = (self.state.debt(), self.state.pool());
        self.state.make(&e, &mut self.hand);
        let cost = cost_between(debt, self.state.debt());
        self.left -= cost;
        self.share = share_between(self.share, pool, self.state.pool());
        made
    }

    /// Makes the look, which the state shows, and gives its stamp.
    pub fn look(&mut self, op: Op, a: i64, b: i64, reply: Reply) -> u32
        requires held { IsHeld S.meaning M.Meaning self.old }
        requires shown { IsTrue (M.shows (S.meaning self.old.state) (look_of self.old.number op a b reply (length (held_front self.old)))) }
        ensures same { SamePlace self.old self.new }
        ensures state { (self.new.state ≡ self.old.state) × (self.new.hand ≡ self.old.hand) }
        ensures held { IsHeld S.meaning M.Meaning self.new }
        ensures view { held_view self.new ≡ with_look (held_view self.old) (look_of self.old.number op a b reply (length (held_front self.old))) }
        ensures stamp { result ≡ length (held_front self.old) }
    {
        let l = Look {
            by: self.number,
            op,
            a,
            b,
            reply,
            at: self.len,
        };
        see(self.top, &mut self.place, &self.state, &l)
    }

    /// Makes room for one new member.
    pub fn reserve(&mut self) -> Result<(), NoMemory>
        requires { IsHeld S.meaning M.Meaning self.old }
        ensures same { SamePlace self.old self.new × (held_view self.new ≡ held_view self.old) × (self.new.hand ≡ self.old.hand) }
        ensures held { IsHeld S.meaning M.Meaning self.new }
        ensures state { S.meaning self.new.state ≡ S.meaning self.old.state }
        ensures alike { S.alike self.old.state self.new.state }
        ensures room { IfOk result (λ _. 1 ≤ S.spare self.new.state) }
        ensures more { S.spare self.old.state ≤ S.spare self.new.state }
        ensures refused { IfErr result (λ _. S.spare self.new.state ≡ S.spare self.old.state) }
    {
        self.state.reserve(1)
    }

    /// Gives the turn up.
    pub fn leave(self)
        requires held { IsHeld S.meaning M.Meaning self }
        requires fits { S.fits self.state }
        requires hand { self.hand ≡ None }
        ensures { IsLeft S.meaning M.Meaning self.entry self.exit.1.0.now }
    {
        let Held {
            top,
            pass,
            mut place,
            number,
            len,
            left,
            share,
            splits,
            state,
            hand: _,
        } = self;
        leave(top, &mut place, state);
        pass.number = number;
        pass.len = len;
        pass.left = left;
        pass.share = share;
        pass.splits = splits;
        pass.badge = place.into_badge();
    }
    /// Counts the change that was made and gives the turn up, in one step. Gives its position.
    pub fn leave_with(self, made: Made<S>) -> u32
        requires made { IsMade S.meaning M.Meaning self made }
        requires fits { S.fits self.state }
        requires hand { self.hand ≡ None }
        ensures left { IsLeftWith S.meaning M.Meaning self.entry made self.exit.1.0.now }
        ensures position { result ≡ length (held_front self.entry) }
    {
        let Held {
            top,
            pass,
            mut place,
            number,
            len: _,
            left,
            share,
            splits,
            state,
            hand: _,
        } = self;
        let Made { before, entry } = made;
        let at = leave_with(top, &mut place, &before, state, &entry);
        pass.number = number;
        pass.len = at + 1;
        pass.left = left;
        pass.share = share;
        pass.splits = splits;
        pass.badge = place.into_badge();
        at
    }
}
