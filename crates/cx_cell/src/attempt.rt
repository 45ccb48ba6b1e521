//! One attempt under the turn.
ghost use Rattle.std.specs.Prelude.{◌≡◌, ◌<◌, ◌≤◌, ◌&&◌, ◌||◌, ◌==◌, ℕ, Some, None, IfSome};
ghost use Rattle.cx_machine.specs.declared.kind.Entry.{Entry};
ghost use Rattle.cx_machine.specs.Meaning.{change};
ghost use Rattle.cx_turn.specs.declared.view.View.{View};
ghost use Rattle.cx_cell.specs.Acts.{Attempts, Does, Pays};
ghost use Rattle.cx_cell.specs.Callers.{is_called};
ghost use Rattle.cx_cell.specs.Cells.{IsCellPass, IsCellPassWith, cell_seats};

use crate::called::Called;
use crate::cell::Cell;
use crate::offer::{Offer, offered};
use crate::queued::{put_off, settle};
use crate::wish::Wish;
use cx_machine::{Entry, Machine, Meaning, Op};
use cx_names::{Reply, ThreadNo};
use cx_turn::{Either, Pass};
use std::hint;
use std::sync::Wait;

// How often a caller tries before it enters the queue and sleeps.
const TRIES: u32 = 7;

// How often it looks for a change between two tries.
const LOOKS: u32 = 256;

pub(crate) fn entry(by: ThreadNo, op: Op, wish: &Wish, reply: Reply) -> Entry
    ensures { result ≡ change by op wish.now.a wish.now.b reply }
{
    Entry {
        by,
        op,
        a: wish.a,
        b: wish.b,
        reply,
    }
}

impl<M: Meaning, S: Machine<M>> Cell<M, S> {
    // Does what is wished for if the state allows it. Else the caller waits in the queue, if it is to.
    // Gives what was done and whether the caller is in the queue, and notes who is to be woken.
    fn attempt<R: Wait>(
        &self,
        rt: &R,
        pass: &mut Pass<M>,
        wish: &Wish,
        waits: bool,
        called: &mut Called,
    ) -> (Option<Either>, bool)
        requires pass { IsCellPass S.meaning M.Meaning self.now pass.old }
        requires pays { IfSome wish.now.change (λ op. (v : View M) → IsCellPassWith S.meaning M.Meaning self.now pass.old v → Pays M.Meaning pass.old.number op wish.now.a wish.now.b v) }
        requires ready { IfSome wish.now.change (λ op. (s : S) (e : Entry) → S.ready s None e) }
        ensures { (v : View M) → IsCellPassWith S.meaning M.Meaning self.now pass.old v → (w : View M) × IsCellPassWith S.meaning M.Meaning self.now pass.new w × Attempts M.Meaning pass.old.number wish.now v w result.0 }
    {
        let mut held = self.turn.take(rt, pass);
        let by = held.number();
        match offered::<M, S>(&held.state().kept.state, by, wish) {
            Offer::Change(op, reply) => {
                let made = held.make(entry(by, op, wish, reply));
                *held.hand() = None;
                settle::<M, S>(held.state_mut(), by, called);
                let at = held.leave_with(made);
                (Some(Either::Made(reply, at)), false)
            }
            Offer::Look(op, reply) => {
                let at = held.look(op, wish.a, wish.b, reply);
                settle::<M, S>(held.state_mut(), by, called);
                held.leave();
                (Some(Either::Seen(reply, at)), false)
            }
            Offer::Nothing => {
                let queued = put_off::<M, S>(held.state_mut(), by, wish, waits);
                held.leave();
                (None, queued)
            }
        }
    }

    // Wakes the caller of this number, if it is to be woken, and notes that it was.
    fn wake_one(&self, pass: &mut Pass<M>, seat: u32, called: &Called, woken: &mut Called)
        requires pass { IsCellPass S.meaning M.Meaning self.now pass.old }
        requires seat { seat < cell_seats S.meaning self.now }
        ensures pass { (v : View M) → IsCellPassWith S.meaning M.Meaning self.now pass.old v → IsCellPassWith S.meaning M.Meaning self.now pass.new v }
        ensures woken { (n : ℕ) → n < 256 → is_called woken.new n ≡ (is_called woken.old n || (is_called called.now n && (seat == n))) }
    {
        if !called.has(seat) {
            return;
        }
        self.turn.wake(pass, ThreadNo(seat));
        woken.add(ThreadNo(seat));
    }

    // Wakes those who are to be woken, and gives whom it woke.
    pub(crate) fn rouse(&self, pass: &mut Pass<M>, called: &Called) -> Called
        requires { IsCellPass S.meaning M.Meaning self.now pass.old }
        ensures pass { (v : View M) → IsCellPassWith S.meaning M.Meaning self.now pass.old v → IsCellPassWith S.meaning M.Meaning self.now pass.new v }
        ensures woken { (n : ℕ) → n < cell_seats S.meaning self.now → is_called result n ≡ is_called called.now n }
    {
        let mut woken = Called::nobody();
        if called.is_empty() {
            return woken;
        }
        for seat in 0..self.turn.seats() {
            self.wake_one(pass, seat, called, &mut woken);
        }
        woken
    }

    // An attempt, after which those are woken whose wishes the state allows now.
    pub(crate) fn act<R: Wait>(
        &self,
        rt: &R,
        pass: &mut Pass<M>,
        wish: &Wish,
        waits: bool,
    ) -> (Option<Either>, bool)
        requires pass { IsCellPass S.meaning M.Meaning self.now pass.old }
        requires pays { IfSome wish.now.change (λ op. (v : View M) → IsCellPassWith S.meaning M.Meaning self.now pass.old v → Pays M.Meaning pass.old.number op wish.now.a wish.now.b v) }
        requires ready { IfSome wish.now.change (λ op. (s : S) (e : Entry) → S.ready s None e) }
        ensures { (v : View M) → IsCellPassWith S.meaning M.Meaning self.now pass.old v → (w : View M) × IsCellPassWith S.meaning M.Meaning self.now pass.new w × Attempts M.Meaning pass.old.number wish.now v w result.0 }
    {
        let mut called = Called::nobody();
        let outcome = self.attempt(rt, pass, wish, waits, &mut called);
        let _ = self.rouse(pass, &called);
        outcome
    }

    // Looks for a short while whether a change came after the caller's last try, and says whether one did.
    // Looking takes no turn, so that whoever is to make the change isn't kept from it.
    fn sees_change(&self, pass: &Pass<M>) -> bool {
        for _ in 0..LOOKS {
            if self.turn.seems_moved(pass) {
                return true;
            }
            hint::spin_loop();
        }
        false
    }

    // Sleeps until the caller is woken, if it is in the queue, and gives how often it tried since. One who
    // saw no change for a while has tried often enough.
    fn rest<R: Wait>(&self, rt: &R, pass: &mut Pass<M>, queued: bool, tries: u32) -> u32
        requires { IsCellPass S.meaning M.Meaning self.now pass.old }
        ensures { (v : View M) → IsCellPassWith S.meaning M.Meaning self.now pass.old v → IsCellPassWith S.meaning M.Meaning self.now pass.new v }
    {
        if queued {
            self.turn.sleep(rt, pass);
            return 0;
        }
        if self.sees_change(pass) {
            tries.saturating_add(1)
        } else {
            TRIES
        }
    }

    // Waits until what is wished for is done.
    pub(crate) fn fulfil<R: Wait>(&self, rt: &R, pass: &mut Pass<M>, wish: &Wish) -> Either
        requires pass { IsCellPass S.meaning M.Meaning self.now pass.old }
        requires pays { IfSome wish.now.change (λ op. (v : View M) → IsCellPassWith S.meaning M.Meaning self.now pass.old v → Pays M.Meaning pass.old.number op wish.now.a wish.now.b v) }
        requires ready { IfSome wish.now.change (λ op. (s : S) (e : Entry) → S.ready s None e) }
        ensures { (v : View M) → IsCellPassWith S.meaning M.Meaning self.now pass.old v → (w : View M) × IsCellPassWith S.meaning M.Meaning self.now pass.new w × Does M.Meaning pass.old.number wish.now v w result }
    {
        let mut tries = 0;
        for _ in rt.forever() {
            let (done, queued) = self.act(rt, pass, wish, tries >= TRIES);
            if let Some(done) = done {
                return done;
            }
            tries = self.rest(rt, pass, queued, tries);
        }
        unreachable!()
    }
}
