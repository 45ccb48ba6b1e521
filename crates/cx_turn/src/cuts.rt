//! Splits and joins of seats.
ghost use Rattle.std.specs.Prelude.{◌≡◌, ◌+◌, ◌<◌, ◌≤◌, [], true, false};
ghost use Rattle.cx_turn.specs.Views.{Has, split_left, split_right, note_left, note_right, both_of};

use crate::plays::{Moved, NewNote, NewPass, TakeIn};
use crate::steps::{Place, Top};
use cx_machine::{Machine, Meaning};
use std::marker::Brand;

// Splits off a pass with the calls that the step's type names.
fn split_as<M: Meaning, S: Machine<M>, C: Moved>(
    top: &Top<M, S>,
    place: &mut Place<M, S>,
    calls: u32,
) -> Place<M, S>
    requires table { (place.old.table_id ≡ top.now.table_id) × (0 < top.now.table_id.words) }
    requires first { (place.old.me.0.live ≡ true) × (place.old.me.0.counts ≡ true) × (place.old.me.0.number ≡ 0) }
    requires seats { place.old.me.0.splits + 1 < place.old.me.0.seats }
    requires calls { C.calls ≤ place.old.me.0.left }
    ensures left { (place.new.table_id ≡ place.old.table_id) × (place.new.id ≡ place.old.id) × (place.new.me ≡ (split_left place.old.me.0 C.calls, place.old.me.1)) }
    ensures right { (result.table_id ≡ place.old.table_id) × (result.me ≡ (split_right place.old.me.0 C.calls, [])) }
{
    let _ = calls;
    top.split_seat::<NewPass<C>>(place)
}

// Splits a pass off the first one.
pub(crate) fn split<M: Meaning, S: Machine<M>>(
    top: &Top<M, S>,
    place: &mut Place<M, S>,
    calls: u32,
) -> Place<M, S>
    requires table { (place.old.table_id ≡ top.now.table_id) × (0 < top.now.table_id.words) }
    requires first { (place.old.me.0.live ≡ true) × (place.old.me.0.counts ≡ true) × (place.old.me.0.number ≡ 0) }
    requires seats { place.old.me.0.splits + 1 < place.old.me.0.seats }
    requires calls { calls ≤ place.old.me.0.left }
    ensures left { (place.new.table_id ≡ place.old.table_id) × (place.new.id ≡ place.old.id) × (place.new.me ≡ (split_left place.old.me.0 calls, place.old.me.1)) }
    ensures right { (result.table_id ≡ place.old.table_id) × (result.me ≡ (split_right place.old.me.0 calls, [])) }
{
    split_as::<M, S, Brand>(top, place, calls)
}

// Splits off a note with what the step's type names.
fn note_as<M: Meaning, S: Machine<M>, C: Moved>(
    top: &Top<M, S>,
    place: &mut Place<M, S>,
    calls: u32,
    share: u32,
    id: Option<u32>,
) -> Place<M, S>
    requires table { (place.old.table_id ≡ top.now.table_id) × (0 < top.now.table_id.words) }
    requires live { place.old.me.0.live ≡ true }
    requires calls { C.calls ≤ place.old.me.0.left }
    requires share { C.share ≤ place.old.me.0.share }
    requires id { Has place.old.me.0.holds C.id }
    ensures left { (place.new.table_id ≡ place.old.table_id) × (place.new.id ≡ place.old.id) × (place.new.me ≡ (note_left place.old.me.0 C.calls C.share C.id, place.old.me.1)) }
    ensures right { (result.table_id ≡ place.old.table_id) × (result.me ≡ (note_right place.old.me.0 C.calls C.share C.id, [])) }
{
    let _ = (calls, share, id);
    top.split_seat::<NewNote<C>>(place)
}

// Splits a note off a pass or a note.
pub(crate) fn note<M: Meaning, S: Machine<M>>(
    top: &Top<M, S>,
    place: &mut Place<M, S>,
    calls: u32,
    share: u32,
    id: Option<u32>,
) -> Place<M, S>
    requires table { (place.old.table_id ≡ top.now.table_id) × (0 < top.now.table_id.words) }
    requires live { place.old.me.0.live ≡ true }
    requires calls { calls ≤ place.old.me.0.left }
    requires share { share ≤ place.old.me.0.share }
    requires id { Has place.old.me.0.holds id }
    ensures left { (place.new.table_id ≡ place.old.table_id) × (place.new.id ≡ place.old.id) × (place.new.me ≡ (note_left place.old.me.0 calls share id, place.old.me.1)) }
    ensures right { (result.table_id ≡ place.old.table_id) × (result.me ≡ (note_right place.old.me.0 calls share id, [])) }
{
    note_as::<M, S, Brand>(top, place, calls, share, id)
}

// Takes the other seat in.
pub(crate) fn take_in<M: Meaning, S: Machine<M>>(
    top: &Top<M, S>,
    place: &mut Place<M, S>,
    other: Place<M, S>,
)
    requires table { (place.old.table_id ≡ top.now.table_id) × (other.table_id ≡ top.now.table_id) × (0 < top.now.table_id.words) }
    requires place { (place.old.me.0.live ≡ true) × (place.old.me.0.inside ≡ false) }
    requires other { (other.me.1 ≡ []) × (other.me.0.live ≡ true) × (other.me.0.inside ≡ false) }
    requires pass { other.me.0.counts ≡ true → place.old.me.0.counts ≡ true }
    ensures { (place.new.table_id ≡ place.old.table_id) × (place.new.id ≡ place.old.id) × (place.new.me ≡ (both_of place.old.me.0 other.me.0, place.old.me.1)) }
{
    top.join_seat::<TakeIn>(place, other);
}
