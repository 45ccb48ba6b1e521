//! What a state offers to a caller.
ghost use Rattle.std.specs.Prelude.{◌≡◌, IsSome, IfSome, IfNone, IsTrue, ℕ, Some};
ghost use Rattle.cx_machine.specs.Meaning.{change, look_of, IsShut, ShowsNone};
ghost use Rattle.cx_cell.specs.Acts.{Offers};

use crate::wish::Wish;
use cx_machine::{Machine, Meaning, Op};
use cx_names::{Reply, ThreadNo};

// What the state offers now, of what was wished for.
#[derive(Clone, Copy)]
pub(crate) enum Offer {
    Change(Op, Reply),
    Look(Op, Reply),
    Nothing,
}

#[inline(always)]
fn change_now<M: Meaning, S: Machine<M>>(
    state: &S,
    by: ThreadNo,
    wish: &Wish,
) -> Option<(Op, Reply)>
    ensures word { IfSome result (λ t. wish.now.change ≡ Some t.0) }
    ensures enabled { IfSome result (λ t. IsSome (M.step (S.meaning state.now) (change by t.0 wish.now.a wish.now.b t.1))) }
    ensures picked { IfSome result (λ t. M.picks (S.meaning state.now) (change by t.0 wish.now.a wish.now.b t.1)) }
    ensures none { IfNone result (IfSome wish.now.change (λ op. IsShut M.step (S.meaning state.now) by op wish.now.a wish.now.b)) }
{
    match wish.change {
        Some(op) => match state.reply(by, op, wish.a, wish.b) {
            Some(reply) => Some((op, reply)),
            None => None,
        },
        None => None,
    }
}

fn look_now<M: Meaning, S: Machine<M>>(state: &S, by: ThreadNo, wish: &Wish) -> Option<(Op, Reply)>
    ensures word { IfSome result (λ t. wish.now.look ≡ Some t.0) }
    ensures shown { IfSome result (λ t. (k : ℕ) → IsTrue (M.shows (S.meaning state.now) (look_of by t.0 wish.now.a wish.now.b t.1 k))) }
    ensures none { IfNone result (IfSome wish.now.look (λ op. ShowsNone M.shows (S.meaning state.now) by op wish.now.a wish.now.b)) }
{
    match wish.look {
        Some(op) => match state.show(by, op, wish.a, wish.b) {
            Some(reply) => Some((op, reply)),
            None => None,
        },
        None => None,
    }
}

#[inline(always)]
pub(crate) fn offered<M: Meaning, S: Machine<M>>(state: &S, by: ThreadNo, wish: &Wish) -> Offer
    ensures { Offers M.Meaning (S.meaning state.now) by wish.now result }
{
    match change_now::<M, S>(state, by, wish) {
        Some((op, reply)) => Offer::Change(op, reply),
        None => match look_now::<M, S>(state, by, wish) {
            Some((op, reply)) => Offer::Look(op, reply),
            None => Offer::Nothing,
        },
    }
}
