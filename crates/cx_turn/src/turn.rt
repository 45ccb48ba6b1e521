//! The turn.
ghost use Rattle.std.specs.Prelude.{◌≡◌, ◌+◌, ◌^◌, ◌<◌, ◌≤◌, [], ◌∷◌, ℕ, replicate, Some, None, IfOk};
ghost use Rattle.cx_turn.specs.Views.{IsNow, IsIn, Has, opening_view, split_left, split_right, note_left, note_right, both_of, less_share, given, having_met};

use crate::cuts::{note, split, take_in};
use crate::held::Held;
use crate::pass::{Note, Pass};
use crate::rule::{Board, Opening};
use crate::steps::{learn, rouse};
use crate::view::{Desk, View};
use crate::waits::{doze, enter};
use atomic_table::Badge;
use cx_machine::{Machine, Meaning};
use cx_names::{NoMemory, ThreadNo};
use std::alloc::Global;
use std::mem;
use std::snapshot::Snapshot;
use std::sync::Wait;

/// A lock round a state, with one counted history of the changes made under it.
#[derive(Drop)]
pub struct Turn<M: Meaning, S: Machine<M>> {
    board: Board<M, S>,
    ghost sized: { (0 < board.shared.table_id.words) × (board.shared.table_id.slots ≡ 1) },
    ghost few: { board.shared.key.seats ≤ 256 },
    ghost wakes: { board.shared.table_id.words ≡ board.shared.key.seats + 1 },
}

// The count of changes, and the wake word of each seat.
fn blank_words(alloc: Global, seats: u32) -> Result<Vec<u64>, NoMemory>
    requires { seats ≤ 256 }
    ensures { IfOk result (λ v. v.items ≡ replicate (seats + 1) 0) }
{
    Ok(vec![in alloc; 0; seats as usize + 1]?)
}

impl<M: Meaning, S: Machine<M>> Turn<M, S> {
    ghost use Rattle.cx_turn.specs.Passes.{IsPassOf, IsPassWith, IsNoteOf, IsNoteWith, IsHeld, start_of, seats_of, Enters};

    /// Makes a turn round `value`, for at most `seats` passes and `calls` changes, and its first pass,
    /// which has number 0, all the calls and the whole pool.
    pub fn new(
        alloc: Global,
        value: S,
        seats: u32,
        calls: u32,
    ) -> Result<(Turn<M, S>, Pass<M>), NoMemory>
        requires seats { (1 ≤ seats) × (seats ≤ 256) }
        requires calls { (calls < 2 ^ 28) × (M.debt (S.meaning value) ≡ 0) }
        requires fits { S.fits value }
        ensures turn { IfOk result (λ t. (start_of S.meaning t.0 ≡ S.meaning value) × (seats_of S.meaning t.0 ≡ seats)) }
        ensures pass { IfOk result (λ t. IsPassWith S.meaning M.Meaning t.0 t.1 (opening_view (S.meaning value) seats calls (M.pool (S.meaning value)))) }
    {
        let share = value.pool();
        let key = Opening {
            state: Snapshot::of(&value),
            seats,
            calls,
        };
        let mut slots = Vec::new(alloc);
        slots.push(Desk::Home(value))?;
        let words = blank_words(alloc, seats)?;
        let Ok((board, seat)) = Board::<M, S>::new(alloc, &words, slots, &key) else {
            return Err(NoMemory);
        };
        let pass = Pass {
            number: ThreadNo(0),
            len: 0,
            left: calls,
            share,
            splits: 0,
            badge: seat.into_badge(),
        };
        Ok((Turn { board }, pass))
    }

    /// How many passes there may be.
    pub fn seats(&self) -> u32
        ensures { result ≡ seats_of S.meaning self.now }
    {
        (self.board.word_count() - 1) as u32
    }

    /// Whether changes seem to have been made that the pass hasn't seen. It takes no turn, and the next
    /// moment may show another answer: a hint for callers who have nothing to do before the next change.
    pub fn seems_moved(&self, pass: &Pass<M>) -> bool {
        self.board.shared.peek(0) / 2 != u64::from(pass.len)
    }

    /// Waits for the turn, and takes it.
    pub fn take<'a, R: Wait>(&'a self, rt: &R, pass: &'a mut Pass<M>) -> Held<'a, M, S>
        requires { IsPassOf S.meaning M.Meaning self.now pass.old }
        ensures same { result.pass.ghost_name ≡ pass.entry.ghost_name }
        ensures top { result.top.now ≡ self.now.board.shared }
        ensures held { IsHeld S.meaning M.Meaning result }
        ensures known { Enters S.meaning M.Meaning self.now pass.old result }
        ensures fits { S.fits result.state }
        ensures hand { result.hand ≡ None }
    {
        let (number, left, share, splits) = (pass.number, pass.left, pass.share, pass.splits);
        let badge = mem::replace(&mut pass.badge, Badge::blank());
        let mut place = badge.into_seat();
        let (state, len) = enter(rt, &self.board.shared, &mut place);
        Held {
            top: &self.board.shared,
            pass,
            place,
            number,
            len,
            left,
            share,
            splits,
            state,
            hand: None,
        }
    }

    /// Sets the wake word of the pass with this number, and wakes who sleeps on it.
    pub fn wake(&self, pass: &mut Pass<M>, seat: ThreadNo)
        requires pass { IsPassOf S.meaning M.Meaning self.now pass.old }
        requires seat { seat.0 < seats_of S.meaning self.now }
        ensures { (v : View M) → IsPassWith S.meaning M.Meaning self.now pass.old v → IsPassWith S.meaning M.Meaning self.now pass.new v }
    {
        let mut place = mem::replace(&mut pass.badge, Badge::blank()).into_seat();
        rouse(&self.board.shared, &mut place, 1 + seat.0 as usize);
        pass.badge = place.into_badge();
    }

    /// Waits until the pass's own wake word is set, and takes it.
    pub fn sleep<R: Wait>(&self, rt: &R, pass: &mut Pass<M>)
        requires { IsPassOf S.meaning M.Meaning self.now pass.old }
        ensures { (v : View M) → IsPassWith S.meaning M.Meaning self.now pass.old v → IsPassWith S.meaning M.Meaning self.now pass.new v }
    {
        let mut place = mem::replace(&mut pass.badge, Badge::blank()).into_seat();
        doze(
            rt,
            &self.board.shared,
            &mut place,
            1 + pass.number.0 as usize,
        );
        pass.badge = place.into_badge();
    }

    /// Splits a new pass off the first one, with `calls` of its changes and the next number.
    pub fn split(&self, first: &mut Pass<M>, calls: u32) -> Pass<M>
        requires pass { IsPassOf S.meaning M.Meaning self.now first.old }
        requires first { first.old.number.0 ≡ 0 }
        requires seats { first.old.splits + 1 < seats_of S.meaning self.now }
        requires calls { calls ≤ first.old.left }
        ensures first { (v : View M) → IsPassWith S.meaning M.Meaning self.now first.old v → IsPassWith S.meaning M.Meaning self.now first.new (split_left v calls) }
        ensures second { (v : View M) → IsPassWith S.meaning M.Meaning self.now first.old v → IsPassWith S.meaning M.Meaning self.now result (split_right v calls) }
    {
        let mut place = mem::replace(&mut first.badge, Badge::blank()).into_seat();
        let other = split(&self.board.shared, &mut place, calls);
        first.badge = place.into_badge();
        first.left -= calls;
        first.splits += 1;
        Pass {
            number: ThreadNo(first.splits),
            len: first.len,
            left: calls,
            share: 0,
            splits: 0,
            badge: other.into_badge(),
        }
    }

    /// Splits a note off a pass, with `share` of its share, `calls` of its changes and one of its IDs.
    pub fn note(&self, pass: &mut Pass<M>, share: u32, calls: u32, id: Option<u32>) -> Note<M>
        requires pass { IsPassOf S.meaning M.Meaning self.now pass.old }
        requires parts { (share ≤ pass.old.share) × (calls ≤ pass.old.left) }
        requires id { (v : View M) → IsPassWith S.meaning M.Meaning self.now pass.old v → Has v.holds id }
        ensures rest { (v : View M) → IsPassWith S.meaning M.Meaning self.now pass.old v → IsPassWith S.meaning M.Meaning self.now pass.new (note_left v calls share id) }
        ensures note { (v : View M) → IsPassWith S.meaning M.Meaning self.now pass.old v → IsNoteWith S.meaning M.Meaning self.now result (note_right v calls share id) }
    {
        let mut place = mem::replace(&mut pass.badge, Badge::blank()).into_seat();
        let other = note(&self.board.shared, &mut place, calls, share, id);
        pass.badge = place.into_badge();
        pass.left -= calls;
        pass.share -= share;
        Note {
            len: pass.len,
            left: calls,
            share,
            badge: other.into_badge(),
        }
    }

    /// Splits a note off a note, with `share` of its share. It has no changes and no ID.
    pub fn part(&self, from: &mut Note<M>, share: u32) -> Note<M>
        requires note { IsNoteOf S.meaning M.Meaning self.now from.old }
        requires share { share ≤ from.old.share }
        ensures rest { (v : View M) → IsNoteWith S.meaning M.Meaning self.now from.old v → IsNoteWith S.meaning M.Meaning self.now from.new (less_share v share) }
        ensures part { (v : View M) → IsNoteWith S.meaning M.Meaning self.now from.old v → IsNoteWith S.meaning M.Meaning self.now result (note_right v 0 share None) }
    {
        let mut place = mem::replace(&mut from.badge, Badge::blank()).into_seat();
        let other = note(&self.board.shared, &mut place, 0, share, None);
        from.badge = place.into_badge();
        from.share -= share;
        Note {
            len: from.len,
            left: 0,
            share,
            badge: other.into_badge(),
        }
    }

    /// Takes a note in: the pass gets its share, its changes, its ID and what it has seen.
    pub fn take_in(&self, pass: &mut Pass<M>, note: Note<M>)
        requires pass { IsPassOf S.meaning M.Meaning self.now pass.old }
        requires note { IsNoteOf S.meaning M.Meaning self.now note }
        ensures { (v w : View M) → IsPassWith S.meaning M.Meaning self.now pass.old v → IsNoteWith S.meaning M.Meaning self.now note w → IsPassWith S.meaning M.Meaning self.now pass.new (both_of v w) }
    {
        let Note {
            len,
            left,
            share,
            badge,
        } = note;
        let mut place = mem::replace(&mut pass.badge, Badge::blank()).into_seat();
        take_in(&self.board.shared, &mut place, badge.into_seat());
        learn(&self.board.shared, &mut place);
        pass.badge = place.into_badge();
        pass.len = pass.len.max(len);
        pass.left += left;
        pass.share += share;
    }

    /// Takes another pass in: the pass gets what it has left, holds as its share and has seen.
    pub fn join(&self, pass: &mut Pass<M>, other: Pass<M>)
        requires pass { IsPassOf S.meaning M.Meaning self.now pass.old }
        requires other { IsPassOf S.meaning M.Meaning self.now other }
        ensures { (v w : View M) → IsPassWith S.meaning M.Meaning self.now pass.old v → IsPassWith S.meaning M.Meaning self.now other w → IsPassWith S.meaning M.Meaning self.now pass.new (both_of v w) }
    {
        let Pass {
            number: _,
            len,
            left,
            share,
            splits: _,
            badge,
        } = other;
        let mut place = mem::replace(&mut pass.badge, Badge::blank()).into_seat();
        take_in(&self.board.shared, &mut place, badge.into_seat());
        learn(&self.board.shared, &mut place);
        pass.badge = place.into_badge();
        pass.len = len.max(pass.len);
        pass.left += left;
        pass.share += share;
    }

    /// Moves `n` of the share of `from` to `to`, which then has seen what both had seen.
    pub fn give(&self, from: &mut Pass<M>, to: &mut Pass<M>, n: u32)
        requires from { IsPassOf S.meaning M.Meaning self.now from.old }
        requires to { IsPassOf S.meaning M.Meaning self.now to.old }
        requires share { n ≤ from.old.share }
        ensures from { (v : View M) → IsPassWith S.meaning M.Meaning self.now from.old v → IsPassWith S.meaning M.Meaning self.now from.new (less_share v n) }
        ensures to { (v w : View M) → IsPassWith S.meaning M.Meaning self.now from.old v → IsPassWith S.meaning M.Meaning self.now to.old w → IsPassWith S.meaning M.Meaning self.now to.new (given w v n) }
    {
        let part = self.note(from, n, 0, None);
        self.take_in(to, part);
    }

    /// Lets `to` see what `from` has seen.
    pub fn meet(&self, from: &mut Pass<M>, to: &mut Pass<M>)
        requires from { IsPassOf S.meaning M.Meaning self.now from.old }
        requires to { IsPassOf S.meaning M.Meaning self.now to.old }
        ensures from { (v : View M) → IsPassWith S.meaning M.Meaning self.now from.old v → IsPassWith S.meaning M.Meaning self.now from.new v }
        ensures to { (v w : View M) → IsPassWith S.meaning M.Meaning self.now from.old v → IsPassWith S.meaning M.Meaning self.now to.old w → IsPassWith S.meaning M.Meaning self.now to.new (having_met w v) }
    {
        self.give(from, to, 0);
    }

    /// Ends the turn, and gives the state.
    ///
    /// The pass is the first one, and has taken in every other. Its front is then the whole history,
    /// and leads to the state.
    pub fn close(self, pass: Pass<M>) -> S
        requires pass { IsPassOf S.meaning M.Meaning self pass }
        requires first { pass.number.0 ≡ 0 }
        requires all { (v : View M) → IsPassWith S.meaning M.Meaning self pass v → (n : ℕ) → 0 < n → n ≤ v.splits → IsIn n v.taken }
        ensures whole { (v : View M) → IsPassWith S.meaning M.Meaning self pass v → IsNow M.Meaning v v.front (S.meaning result) }
        ensures fits { S.fits result }
    {
        let Turn { board } = self;
        let Pass {
            number: _,
            len: _,
            left: _,
            share: _,
            splits: _,
            badge,
        } = pass;
        let mut closed = board.close_with(badge.into_seat());
        let desk = closed.take(0);
        closed.free();
        let Desk::Home(state) = desk else {
            unreachable!()
        };
        state
    }
}
