//! Waiting for the turn.
ghost use Rattle.std.specs.Prelude.{◌≡◌, ◌<◌, [], ◌∷◌, length, true, false};
ghost use mathlib.Core.List.{IsPrefix};
ghost use Rattle.cx_turn.specs.Views.{IsKnown, IsNow, entered};
ghost use Rattle.cx_turn.specs.declared.view.Desk.TheVariants.{Away};

use crate::steps::{Place, Top, hears, try_enter};
use cx_machine::{Machine, Meaning};
use std::hint;
use std::sync::Wait;
use std::time::Duration;

// How often a caller looks at a turn that is taken before it rests.
const LOOKS: u32 = 64;

// How long it rests, in microseconds. Who gives a turn up wakes nobody.
const REST: u64 = 50;

// Returns soon after the turn is free, or a short while later.
fn pause<M: Meaning, S: Machine<M>, R: Wait>(rt: &R, top: &Top<M, S>)
    requires { 0 < top.now.table_id.words }
{
    for _ in 0..LOOKS {
        if top.peek(0) % 2 == 0 {
            return;
        }
        hint::spin_loop();
    }
    let word = (top.peek(0) % 4_294_967_296) as u32;
    if word % 2 == 1 {
        top.park_timeout(rt, 0, word, Duration::from_micros(REST));
    }
}

// Waits for the turn, and takes it.
pub(crate) fn enter<M: Meaning, S: Machine<M>, R: Wait>(
    rt: &R,
    top: &Top<M, S>,
    place: &mut Place<M, S>,
) -> (S, u32)
    requires table { (place.old.table_id ≡ top.now.table_id) × (0 < top.now.table_id.words) }
    requires idle { (place.old.me.1 ≡ []) × (place.old.me.0.live ≡ true) × (place.old.me.0.counts ≡ true) × (place.old.me.0.inside ≡ false) }
    ensures place { (place.new.table_id ≡ place.old.table_id) × (place.new.id ≡ place.old.id) }
    ensures view { place.new.me ≡ (entered place.old.me.0 place.new.me.0.front, (0, Away) ∷ []) }
    ensures later { IsPrefix place.old.me.0.front place.new.me.0.front }
    ensures known { IsKnown M.Meaning place.new.me.0 }
    ensures now { IsNow M.Meaning place.new.me.0 place.new.me.0.front (S.meaning result.0) }
    ensures fits { S.fits result.0 }
    ensures len { result.1 ≡ length place.new.me.0.front }
{
    for _ in rt.forever() {
        if let Some(entry) = try_enter(top, place) {
            return entry;
        }
        pause(rt, top);
    }
    unreachable!()
}

// Looks at a wake word for a short while, and then sleeps until it is set. It may return earlier.
fn listen<M: Meaning, S: Machine<M>, R: Wait>(rt: &R, top: &Top<M, S>, word: usize)
    requires { word < top.now.table_id.words }
{
    for _ in 0..LOOKS {
        if top.peek(word) != 0 {
            return;
        }
        hint::spin_loop();
    }
    top.park(rt, word, 0);
}

// Waits until a wake word is set, and takes it.
pub(crate) fn doze<M: Meaning, S: Machine<M>, R: Wait>(
    rt: &R,
    top: &Top<M, S>,
    place: &mut Place<M, S>,
    word: usize,
)
    requires table { (place.old.table_id ≡ top.now.table_id) × (word < top.now.table_id.words) }
    requires wake { 0 < word }
    ensures { (place.new.table_id ≡ place.old.table_id) × (place.new.id ≡ place.old.id) × (place.new.me ≡ place.old.me) }
{
    for _ in rt.forever() {
        if hears(top, place, word) {
            return;
        }
        listen(rt, top, word);
    }
    unreachable!()
}
