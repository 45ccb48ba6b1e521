//! An attempt that tells what its caller may do next.
ghost use Rattle.std.specs.Prelude.{◌≡◌, None, IfSome, IfNone};
ghost use Rattle.cx_machine.specs.declared.kind.Entry.{Entry};
ghost use Rattle.cx_machine.specs.Meaning.{IsShut, ShowsNone};
ghost use Rattle.cx_turn.specs.declared.view.View.{View};
ghost use Rattle.cx_turn.specs.Acts.{Finds, DoesEither};
ghost use Rattle.cx_cell.specs.Acts.{Attempts, Pays};
ghost use Rattle.cx_cell.specs.Cells.{IsCellPass, IsCellPassWith};
ghost use Rattle.cx_cell.specs.Seen.{Allows, Tells};

use crate::attempt::entry;
use crate::called::Called;
use crate::cell::Cell;
use crate::offer::{Offer, offered};
use crate::queued::settle;
use crate::wish::Wish;
use cx_machine::{Machine, Meaning, Op};
use cx_names::ThreadNo;
use cx_turn::{Either, Pass};
use std::sync::Wait;

// Whether the state allows the change with this word.
fn allows<M: Meaning, S: Machine<M>>(state: &S, by: ThreadNo, op: Op) -> bool
    ensures { Allows M.step by op result (S.meaning state.now) }
{
    state.reply(by, op, 0, 0).is_some()
}

impl<M: Meaning, S: Machine<M>> Cell<M, S> {
    // Does what is wished for if the state allows it. Says also whether the state then allows the caller
    // the change `next`, and notes who is to be woken.
    fn attempt_then<R: Wait>(
        &self,
        rt: &R,
        pass: &mut Pass<M>,
        wish: &Wish,
        next: Op,
        called: &mut Called,
    ) -> (Option<Either>, bool)
        requires pass { IsCellPass S.meaning M.Meaning self.now pass.old }
        requires pays { IfSome wish.now.change (λ op. (v : View M) → IsCellPassWith S.meaning M.Meaning self.now pass.old v → Pays M.Meaning pass.old.number op wish.now.a wish.now.b v) }
        requires ready { IfSome wish.now.change (λ op. (s : S) (e : Entry) → S.ready s None e) }
        ensures { (v : View M) → IsCellPassWith S.meaning M.Meaning self.now pass.old v → (w : View M) × IsCellPassWith S.meaning M.Meaning self.now pass.new w × Attempts M.Meaning pass.old.number wish.now v w result.0 × Tells M.step pass.old.number next result.1 w }
    {
        let mut held = self.turn.take(rt, pass);
        let by = held.number();
        match offered::<M, S>(&held.state().kept.state, by, wish) {
            Offer::Change(op, reply) => {
                let made = held.make(entry(by, op, wish, reply));
                *held.hand() = None;
                settle::<M, S>(held.state_mut(), by, called);
                let more = allows::<M, S>(&held.state().kept.state, by, next);
                let at = held.leave_with(made);
                (Some(Either::Made(reply, at)), more)
            }
            Offer::Look(op, reply) => {
                let at = held.look(op, wish.a, wish.b, reply);
                settle::<M, S>(held.state_mut(), by, called);
                let more = allows::<M, S>(&held.state().kept.state, by, next);
                held.leave();
                (Some(Either::Seen(reply, at)), more)
            }
            Offer::Nothing => {
                let more = allows::<M, S>(&held.state().kept.state, by, next);
                held.leave();
                (None, more)
            }
        }
    }

    /// Makes the change, or else the look with the same numbers, if the state allows one of the two. Says
    /// also whether the state that it leaves allows the caller the change `next` with 0 for both numbers.
    ///
    /// Returns None exactly where the state after the `len` changes that the pass then has seen allows
    /// neither.
    pub fn try_either_then<R: Wait>(
        &self,
        rt: &R,
        pass: &mut Pass<M>,
        change: Op,
        look: Op,
        a: i64,
        b: i64,
        next: Op,
    ) -> Option<(Either, bool)>
        requires pass { IsCellPass S.meaning M.Meaning self.now pass.old }
        requires pays { (v : View M) → IsCellPassWith S.meaning M.Meaning self.now pass.old v → Pays M.Meaning pass.old.number change a b v }
        requires ready { (s : S) (e : Entry) → S.ready s None e }
        ensures done { IfSome result (λ t. (v : View M) → IsCellPassWith S.meaning M.Meaning self.now pass.old v → (w : View M) × IsCellPassWith S.meaning M.Meaning self.now pass.new w × DoesEither M.Meaning pass.old.number change look a b v w t.0 × Tells M.step pass.old.number next t.1 w) }
        ensures none { IfNone result ((v : View M) → IsCellPassWith S.meaning M.Meaning self.now pass.old v → (w : View M) × IsCellPassWith S.meaning M.Meaning self.now pass.new w × Finds M.Meaning (λ m. IsShut M.step m pass.old.number change a b × ShowsNone M.shows m pass.old.number look a b) v w) }
    {
        let wish = Wish::new(Some(change), Some(look), a, b);
        let mut called = Called::nobody();
        let (done, more) = self.attempt_then(rt, pass, &wish, next, &mut called);
        let _ = self.rouse(pass, &called);
        match done {
            Some(done) => Some((done, more)),
            None => None,
        }
    }
}
