//! The calls on a cell.
ghost use Rattle.std.specs.Prelude.{◌≡◌, ◌<◌, ◌≤◌, ℕ, pos, Some, None, IfSome, IfNone};
ghost use Rattle.cx_machine.specs.declared.kind.Entry.{Entry};
ghost use Rattle.cx_machine.specs.Meaning.{change, look_of, IsShut, ShowsNone};
ghost use Rattle.cx_turn.specs.declared.view.View.{View};
ghost use Rattle.cx_turn.specs.Acts.{Makes, Looks, Finds, DoesEither};
ghost use Rattle.cx_cell.specs.Acts.{Pays};
ghost use Rattle.cx_cell.specs.Cells.{IsCellPass, IsCellPassWith};
ghost use Rattle.cx_cell.specs.Queue.{IsMarked};

use crate::cell::Cell;
use crate::queued::waiter_of;
use crate::wish::{Waiter, Wish};
use cx_machine::{Machine, Meaning, Op};
use cx_names::{Reply, ThreadNo};
use cx_turn::{Either, Pass};
use std::sync::Wait;

impl<M: Meaning, S: Machine<M>> Cell<M, S> {
    /// Makes the change if it is enabled, and gives its reply and its position.
    ///
    /// Returns None exactly where no such change is enabled at the state after the `len` changes that
    /// the pass then has seen.
    pub fn try_change<R: Wait>(
        &self,
        rt: &R,
        pass: &mut Pass<M>,
        op: Op,
        a: i64,
        b: i64,
    ) -> Option<(Reply, u32)>
        requires pass { IsCellPass S.meaning M.Meaning self.now pass.old }
        requires pays { (v : View M) → IsCellPassWith S.meaning M.Meaning self.now pass.old v → Pays M.Meaning pass.old.number op a b v }
        requires ready { (s : S) (e : Entry) → S.ready s None e }
        ensures made { IfSome result (λ t. (v : View M) → IsCellPassWith S.meaning M.Meaning self.now pass.old v → (w : View M) × IsCellPassWith S.meaning M.Meaning self.now pass.new w × Makes M.Meaning v w (change pass.old.number op a b t.0) t.1) }
        ensures none { IfNone result ((v : View M) → IsCellPassWith S.meaning M.Meaning self.now pass.old v → (w : View M) × IsCellPassWith S.meaning M.Meaning self.now pass.new w × Finds M.Meaning (λ m. IsShut M.step m pass.old.number op a b) v w) }
    {
        let wish = Wish::new(Some(op), None, a, b);
        match self.act(rt, pass, &wish, false).0 {
            Some(done) => match done {
                Either::Made(reply, at) => Some((reply, at)),
                Either::Seen(..) => unreachable!(),
            },
            None => None,
        }
    }

    /// Makes the look if it is shown, and gives its reply and its stamp.
    ///
    /// Returns None exactly where no such look is shown by the state after the `len` changes that the
    /// pass then has seen.
    pub fn look<R: Wait>(
        &self,
        rt: &R,
        pass: &mut Pass<M>,
        op: Op,
        a: i64,
        b: i64,
    ) -> Option<(Reply, u32)>
        requires pass { IsCellPass S.meaning M.Meaning self.now pass.old }
        ensures seen { IfSome result (λ t. (v : View M) → IsCellPassWith S.meaning M.Meaning self.now pass.old v → (w : View M) × IsCellPassWith S.meaning M.Meaning self.now pass.new w × Looks M.Meaning v w (look_of pass.old.number op a b t.0 t.1)) }
        ensures none { IfNone result ((v : View M) → IsCellPassWith S.meaning M.Meaning self.now pass.old v → (w : View M) × IsCellPassWith S.meaning M.Meaning self.now pass.new w × Finds M.Meaning (λ m. ShowsNone M.shows m pass.old.number op a b) v w) }
    {
        let wish = Wish::new(None, Some(op), a, b);
        match self.act(rt, pass, &wish, false).0 {
            Some(done) => match done {
                Either::Seen(reply, at) => Some((reply, at)),
                Either::Made(..) => unreachable!(),
            },
            None => None,
        }
    }

    /// Makes the change, or else the look with the same numbers, if the state allows one of the two.
    ///
    /// Returns None exactly where the state after the `len` changes that the pass then has seen allows
    /// neither.
    pub fn try_either<R: Wait>(
        &self,
        rt: &R,
        pass: &mut Pass<M>,
        change: Op,
        look: Op,
        a: i64,
        b: i64,
    ) -> Option<Either>
        requires pass { IsCellPass S.meaning M.Meaning self.now pass.old }
        requires pays { (v : View M) → IsCellPassWith S.meaning M.Meaning self.now pass.old v → Pays M.Meaning pass.old.number change a b v }
        requires ready { (s : S) (e : Entry) → S.ready s None e }
        ensures done { IfSome result (λ e. (v : View M) → IsCellPassWith S.meaning M.Meaning self.now pass.old v → (w : View M) × IsCellPassWith S.meaning M.Meaning self.now pass.new w × DoesEither M.Meaning pass.old.number change look a b v w e) }
        ensures none { IfNone result ((v : View M) → IsCellPassWith S.meaning M.Meaning self.now pass.old v → (w : View M) × IsCellPassWith S.meaning M.Meaning self.now pass.new w × Finds M.Meaning (λ m. IsShut M.step m pass.old.number change a b × ShowsNone M.shows m pass.old.number look a b) v w) }
    {
        let wish = Wish::new(Some(change), Some(look), a, b);
        self.act(rt, pass, &wish, false).0
    }

    /// Makes the change as soon as it is enabled, and gives its reply and its position. Waits.
    pub fn wait_change<R: Wait>(
        &self,
        rt: &R,
        pass: &mut Pass<M>,
        op: Op,
        a: i64,
        b: i64,
    ) -> (Reply, u32)
        requires pass { IsCellPass S.meaning M.Meaning self.now pass.old }
        requires pays { (v : View M) → IsCellPassWith S.meaning M.Meaning self.now pass.old v → Pays M.Meaning pass.old.number op a b v }
        requires ready { (s : S) (e : Entry) → S.ready s None e }
        ensures { (v : View M) → IsCellPassWith S.meaning M.Meaning self.now pass.old v → (w : View M) × IsCellPassWith S.meaning M.Meaning self.now pass.new w × Makes M.Meaning v w (change pass.old.number op a b result.0) result.1 }
    {
        let wish = Wish::new(Some(op), None, a, b);
        match self.fulfil(rt, pass, &wish) {
            Either::Made(reply, at) => (reply, at),
            Either::Seen(..) => unreachable!(),
        }
    }

    /// Makes the look as soon as it is shown, and gives its reply and its stamp. Waits.
    pub fn wait_look<R: Wait>(
        &self,
        rt: &R,
        pass: &mut Pass<M>,
        op: Op,
        a: i64,
        b: i64,
    ) -> (Reply, u32)
        requires pass { IsCellPass S.meaning M.Meaning self.now pass.old }
        ensures { (v : View M) → IsCellPassWith S.meaning M.Meaning self.now pass.old v → (w : View M) × IsCellPassWith S.meaning M.Meaning self.now pass.new w × Looks M.Meaning v w (look_of pass.old.number op a b result.0 result.1) }
    {
        let wish = Wish::new(None, Some(op), a, b);
        match self.fulfil(rt, pass, &wish) {
            Either::Seen(reply, at) => (reply, at),
            Either::Made(..) => unreachable!(),
        }
    }

    /// Makes the change or the look, whichever the state allows first, and the change where it allows
    /// both. Waits.
    pub fn wait_either<R: Wait>(&self, rt: &R, pass: &mut Pass<M>, change: Op, look: Op) -> Either
        requires pass { IsCellPass S.meaning M.Meaning self.now pass.old }
        requires pays { (v : View M) → IsCellPassWith S.meaning M.Meaning self.now pass.old v → Pays M.Meaning pass.old.number change (pos 0) (pos 0) v }
        requires ready { (s : S) (e : Entry) → S.ready s None e }
        ensures { (v : View M) → IsCellPassWith S.meaning M.Meaning self.now pass.old v → (w : View M) × IsCellPassWith S.meaning M.Meaning self.now pass.new w × DoesEither M.Meaning pass.old.number change look (pos 0) (pos 0) v w result }
    {
        let wish = Wish::new(Some(change), Some(look), 0, 0);
        self.fulfil(rt, pass, &wish)
    }

    /// The caller of this number as it stands in the queue, if it is there.
    ///
    /// Each caller in the queue whose wish the state allows is marked as woken: one that isn't marked
    /// waits for what the state after the `len` changes that the pass then has seen denies.
    pub fn waiter<R: Wait>(&self, rt: &R, pass: &mut Pass<M>, seat: ThreadNo) -> Option<Waiter>
        requires { IsCellPass S.meaning M.Meaning self.now pass.old }
        ensures seat { IfSome result (λ w. w.seat ≡ seat) }
        ensures marked { (v : View M) → IsCellPassWith S.meaning M.Meaning self.now pass.old v → (w : View M) × IsCellPassWith S.meaning M.Meaning self.now pass.new w × Finds M.Meaning (λ m. IfSome result (IsMarked M.Meaning m)) v w }
    {
        let held = self.turn.take(rt, pass);
        let found = waiter_of(&held.state().kept.queue, seat);
        held.leave();
        found
    }
}
