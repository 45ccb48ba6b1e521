//! The steps on the table, each over a seat.
ghost use Rattle.std.specs.Prelude.{◌≡◌, ◌+◌, ◌*◌, ◌^◌, ◌<◌, ◌≤◌, [], ◌∷◌, length, true, false, Some, IsTrue, IfSome, IfNone, Option};
ghost use mathlib.Core.List.{IsPrefix};
ghost use Rattle.cx_machine.specs.Meaning.{run};
ghost use Rattle.cx_turn.specs.Turning.{IsOut};
ghost use Rattle.cx_turn.specs.Views.{IsKnown, IsNow, Has, entered, with_change, with_look, outside, cost_of};
ghost use Rattle.cx_turn.specs.declared.view.Desk.TheVariants.{Home, Away};

use crate::plays::{Change, Chosen, LastChange, Learn, Leave, LookAt, Shown, Signal, Take};
use crate::rule::{Opening, TurnRule};
use crate::view::{Desk, View};
use atomic_table::{Seat, Shared};
use cx_machine::{Entry, Look, Machine, Meaning};
use std::marker::Brand;
use std::snapshot::Snapshot;
use std::sync::Wait;

pub type Top<M, S> = Shared<Desk<S>, View<M>, Opening<S>, TurnRule<M>>;

pub type Place<M, S> = Seat<Desk<S>, View<M>>;

// Takes the turn where it is free.
pub(crate) fn try_enter<M: Meaning, S: Machine<M>>(
    top: &Top<M, S>,
    place: &mut Place<M, S>,
) -> Option<(S, u32)>
    requires table { (place.old.table_id ≡ top.now.table_id) × (0 < top.now.table_id.words) }
    requires idle { (place.old.me.1 ≡ []) × (place.old.me.0.live ≡ true) × (place.old.me.0.counts ≡ true) × (place.old.me.0.inside ≡ false) }
    ensures place { (place.new.table_id ≡ place.old.table_id) × (place.new.id ≡ place.old.id) }
    ensures none { IfNone result (place.new.me ≡ place.old.me) }
    ensures view { IfSome result (λ t. place.new.me ≡ (entered place.old.me.0 place.new.me.0.front, (0, Away) ∷ [])) }
    ensures later { IfSome result (λ t. IsPrefix place.old.me.0.front place.new.me.0.front) }
    ensures known { IfSome result (λ t. IsKnown M.Meaning place.new.me.0) }
    ensures now { IfSome result (λ t. IsNow M.Meaning place.new.me.0 place.new.me.0.front (S.meaning t.0)) }
    ensures fits { IfSome result (λ t. S.fits t.0) }
    ensures len { IfSome result (λ t. t.1 ≡ length place.new.me.0.front) }
{
    let found = top.fetch_or::<Take<M>>(place, 0, 1);
    if found % 2 == 1 {
        return None;
    }
    let Desk::Home(state) = top.exchange(place, 0, Desk::Away) else {
        unreachable!()
    };
    Some((state, (found / 2) as u32))
}

// The count goes up by one change, which the step's type names.
fn add_as<M: Meaning, S: Machine<M>, E: Chosen>(
    top: &Top<M, S>,
    place: &mut Place<M, S>,
    before: &Snapshot<S>,
    state: &S,
    e: &Entry,
) -> u64
    requires table { (place.old.table_id ≡ top.now.table_id) × (0 < top.now.table_id.words) }
    requires held { IsOut place.old }
    requires leads { run M.step (Some place.old.me.0.start) place.old.me.0.front ≡ Some (S.meaning before.now.value) }
    requires enabled { M.step (S.meaning before.now.value) E.entry ≡ Some (S.meaning state.now) }
    requires own { E.entry.by.0 ≡ place.old.me.0.number }
    requires paid { cost_of (M.debt (S.meaning before.now.value)) (M.debt (S.meaning state.now)) ≤ place.old.me.0.left }
    requires shared { M.pool (S.meaning before.now.value) ≤ place.old.me.0.share + M.pool (S.meaning state.now) }
    requires pool { M.pool (S.meaning state.now) < 2 ^ 32 }
    requires id { Has place.old.me.0.holds (M.takes (S.meaning before.now.value) E.entry) }
    ensures place { (place.new.table_id ≡ place.old.table_id) × (place.new.id ≡ place.old.id) }
    ensures view { place.new.me ≡ (with_change M.Meaning place.old.me.0 E.entry (S.meaning before.now.value) (S.meaning state.now), place.old.me.1) }
    ensures known { IsKnown M.Meaning place.new.me.0 }
    ensures now { IsNow M.Meaning place.new.me.0 place.new.me.0.front (S.meaning state.now) }
    ensures found { result ≡ 2 * length place.old.me.0.front + 1 }
{
    let _ = before;
    let _ = state;
    let _ = e;
    top.fetch_add::<Change<E>>(place, 0, 2)
}

// Counts the change from one state to the other, and gives its position.
pub(crate) fn count<M: Meaning, S: Machine<M>>(
    top: &Top<M, S>,
    place: &mut Place<M, S>,
    before: &Snapshot<S>,
    state: &S,
    e: &Entry,
) -> u32
    requires table { (place.old.table_id ≡ top.now.table_id) × (0 < top.now.table_id.words) }
    requires held { IsOut place.old }
    requires leads { run M.step (Some place.old.me.0.start) place.old.me.0.front ≡ Some (S.meaning before.now.value) }
    requires enabled { M.step (S.meaning before.now.value) e.now ≡ Some (S.meaning state.now) }
    requires own { e.now.by.0 ≡ place.old.me.0.number }
    requires paid { cost_of (M.debt (S.meaning before.now.value)) (M.debt (S.meaning state.now)) ≤ place.old.me.0.left }
    requires shared { M.pool (S.meaning before.now.value) ≤ place.old.me.0.share + M.pool (S.meaning state.now) }
    requires pool { M.pool (S.meaning state.now) < 2 ^ 32 }
    requires id { Has place.old.me.0.holds (M.takes (S.meaning before.now.value) e.now) }
    ensures place { (place.new.table_id ≡ place.old.table_id) × (place.new.id ≡ place.old.id) }
    ensures view { place.new.me ≡ (with_change M.Meaning place.old.me.0 e.now (S.meaning before.now.value) (S.meaning state.now), place.old.me.1) }
    ensures known { IsKnown M.Meaning place.new.me.0 }
    ensures now { IsNow M.Meaning place.new.me.0 place.new.me.0.front (S.meaning state.now) }
    ensures position { result ≡ length place.old.me.0.front }
{
    let found = add_as::<M, S, Brand>(top, place, before, state, e);
    (found / 2) as u32
}

// A load that counts the look, which the step's type names.
fn see_as<M: Meaning, S: Machine<M>, L: Shown>(
    top: &Top<M, S>,
    place: &mut Place<M, S>,
    state: &S,
    l: &Look,
) -> u64
    requires table { (place.old.table_id ≡ top.now.table_id) × (0 < top.now.table_id.words) }
    requires held { IsOut place.old }
    requires leads { run M.step (Some place.old.me.0.start) place.old.me.0.front ≡ Some (S.meaning state.now) }
    requires shown { IsTrue (M.shows (S.meaning state.now) L.look) }
    requires own { L.look.by.0 ≡ place.old.me.0.number }
    requires stamp { L.look.at ≡ length place.old.me.0.front }
    ensures place { (place.new.table_id ≡ place.old.table_id) × (place.new.id ≡ place.old.id) }
    ensures view { place.new.me ≡ (with_look place.old.me.0 L.look, place.old.me.1) }
    ensures known { IsKnown M.Meaning place.new.me.0 }
    ensures found { result ≡ 2 * length place.old.me.0.front + 1 }
{
    let _ = state;
    let _ = l;
    top.load::<LookAt<L>>(place, 0)
}

// Makes the look, and gives its stamp.
pub(crate) fn see<M: Meaning, S: Machine<M>>(
    top: &Top<M, S>,
    place: &mut Place<M, S>,
    state: &S,
    l: &Look,
) -> u32
    requires table { (place.old.table_id ≡ top.now.table_id) × (0 < top.now.table_id.words) }
    requires held { IsOut place.old }
    requires leads { run M.step (Some place.old.me.0.start) place.old.me.0.front ≡ Some (S.meaning state.now) }
    requires shown { IsTrue (M.shows (S.meaning state.now) l.now) }
    requires own { l.now.by.0 ≡ place.old.me.0.number }
    requires stamp { l.now.at ≡ length place.old.me.0.front }
    ensures place { (place.new.table_id ≡ place.old.table_id) × (place.new.id ≡ place.old.id) }
    ensures view { place.new.me ≡ (with_look place.old.me.0 l.now, place.old.me.1) }
    ensures known { IsKnown M.Meaning place.new.me.0 }
    ensures stamp { result ≡ length place.old.me.0.front }
{
    let found = see_as::<M, S, Brand>(top, place, state, l);
    (found / 2) as u32
}

// Puts the state back, and gives the turn up.
pub(crate) fn leave<M: Meaning, S: Machine<M>>(top: &Top<M, S>, place: &mut Place<M, S>, state: S)
    requires table { (place.old.table_id ≡ top.now.table_id) × (0 < top.now.table_id.words) }
    requires held { IsOut place.old }
    requires leads { run M.step (Some place.old.me.0.start) place.old.me.0.front ≡ Some (S.meaning state) }
    requires fits { S.fits state }
    ensures place { (place.new.table_id ≡ place.old.table_id) × (place.new.id ≡ place.old.id) }
    ensures view { place.new.me ≡ (outside place.old.me.0, []) }
{
    let _away = top.exchange(place, 0, Desk::Home(state));
    top.fetch_and::<Leave>(place, 0, u64::MAX - 1);
}

// Puts the state back, and then the count goes up by one change, which the step's type names, while
// the turn is given up.
fn leave_as<M: Meaning, S: Machine<M>, E: Chosen>(
    top: &Top<M, S>,
    place: &mut Place<M, S>,
    before: &Snapshot<S>,
    state: S,
    e: &Snapshot<Entry>,
) -> u64
    requires table { (place.old.table_id ≡ top.now.table_id) × (0 < top.now.table_id.words) }
    requires held { IsOut place.old }
    requires leads { run M.step (Some place.old.me.0.start) place.old.me.0.front ≡ Some (S.meaning before.now.value) }
    requires enabled { M.step (S.meaning before.now.value) E.entry ≡ Some (S.meaning state) }
    requires own { E.entry.by.0 ≡ place.old.me.0.number }
    requires paid { cost_of (M.debt (S.meaning before.now.value)) (M.debt (S.meaning state)) ≤ place.old.me.0.left }
    requires shared { M.pool (S.meaning before.now.value) ≤ place.old.me.0.share + M.pool (S.meaning state) }
    requires pool { M.pool (S.meaning state) < 2 ^ 32 }
    requires id { Has place.old.me.0.holds (M.takes (S.meaning before.now.value) E.entry) }
    requires fits { S.fits state }
    ensures place { (place.new.table_id ≡ place.old.table_id) × (place.new.id ≡ place.old.id) }
    ensures view { place.new.me ≡ (outside (with_change M.Meaning place.old.me.0 E.entry (S.meaning before.now.value) (S.meaning state)), []) }
    ensures known { IsKnown M.Meaning place.new.me.0 }
    ensures now { IsNow M.Meaning place.new.me.0 place.new.me.0.front (S.meaning state) }
    ensures found { result ≡ 2 * length place.old.me.0.front + 1 }
{
    let _ = before;
    let _ = e;
    let _away = top.exchange(place, 0, Desk::Home(state));
    top.fetch_add::<LastChange<E>>(place, 0, 1)
}

// Puts the state back, counts the change from one state to the other, gives the turn up in the same
// step, and gives the change's position.
pub(crate) fn leave_with<M: Meaning, S: Machine<M>>(
    top: &Top<M, S>,
    place: &mut Place<M, S>,
    before: &Snapshot<S>,
    state: S,
    e: &Snapshot<Entry>,
) -> u32
    requires table { (place.old.table_id ≡ top.now.table_id) × (0 < top.now.table_id.words) }
    requires held { IsOut place.old }
    requires leads { run M.step (Some place.old.me.0.start) place.old.me.0.front ≡ Some (S.meaning before.now.value) }
    requires enabled { M.step (S.meaning before.now.value) e.now.value ≡ Some (S.meaning state) }
    requires own { e.now.value.by.0 ≡ place.old.me.0.number }
    requires paid { cost_of (M.debt (S.meaning before.now.value)) (M.debt (S.meaning state)) ≤ place.old.me.0.left }
    requires shared { M.pool (S.meaning before.now.value) ≤ place.old.me.0.share + M.pool (S.meaning state) }
    requires pool { M.pool (S.meaning state) < 2 ^ 32 }
    requires id { Has place.old.me.0.holds (M.takes (S.meaning before.now.value) e.now.value) }
    requires fits { S.fits state }
    ensures place { (place.new.table_id ≡ place.old.table_id) × (place.new.id ≡ place.old.id) }
    ensures view { place.new.me ≡ (outside (with_change M.Meaning place.old.me.0 e.now.value (S.meaning before.now.value) (S.meaning state)), []) }
    ensures known { IsKnown M.Meaning place.new.me.0 }
    ensures now { IsNow M.Meaning place.new.me.0 place.new.me.0.front (S.meaning state) }
    ensures position { result ≡ length place.old.me.0.front }
{
    let found = leave_as::<M, S, Brand>(top, place, before, state, e);
    (found / 2) as u32
}

// Sets a wake word, and wakes who sleeps on it.
pub(crate) fn rouse<M: Meaning, S: Machine<M>>(
    top: &Top<M, S>,
    place: &mut Place<M, S>,
    word: usize,
)
    requires table { (place.old.table_id ≡ top.now.table_id) × (word < top.now.table_id.words) }
    requires wake { 0 < word }
    ensures { (place.new.table_id ≡ place.old.table_id) × (place.new.id ≡ place.old.id) × (place.new.me ≡ place.old.me) }
{
    if top.swap::<Signal>(place, word, 1) == 0 {
        top.wake_one(word);
    }
}

// Takes a wake word, and says whether it was set.
pub(crate) fn hears<M: Meaning, S: Machine<M>>(
    top: &Top<M, S>,
    place: &mut Place<M, S>,
    word: usize,
) -> bool
    requires table { (place.old.table_id ≡ top.now.table_id) × (word < top.now.table_id.words) }
    requires wake { 0 < word }
    ensures { (place.new.table_id ≡ place.old.table_id) × (place.new.id ≡ place.old.id) × (place.new.me ≡ place.old.me) }
{
    top.swap::<Signal>(place, word, 0) == 1
}

// Sees what is so of the seat's own view.
pub(crate) fn learn<M: Meaning, S: Machine<M>>(top: &Top<M, S>, place: &mut Place<M, S>)
    requires table { (place.old.table_id ≡ top.now.table_id) × (0 < top.now.table_id.words) }
    requires live { place.old.me.0.live ≡ true }
    ensures same { (place.new.table_id ≡ place.old.table_id) × (place.new.id ≡ place.old.id) × (place.new.me ≡ place.old.me) }
    ensures known { IsKnown M.Meaning place.new.me.0 }
{
    top.load::<Learn>(place, 0);
}
