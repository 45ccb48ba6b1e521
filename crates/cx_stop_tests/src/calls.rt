//! The other calls, once each.
ghost use Rattle.std.specs.Prelude.{◌≡◌, ◌≤◌};
ghost use Rattle.cx_stop.specs.Stops.{IsStopPass, IsSource};

use crate::callers::{late, request};
use crate::numbered::{Numbered, keeper};
use cx_names::NoMemory;
use cx_stop::{Requested, StopPass, StopSource, StopState, StopToken};
use std::alloc::Global;
use std::sync::Wait;
use std::test::Fail;

// What a token answers to both questions.
fn asks<R: Wait>(
    rt: &R,
    state: &StopState<Numbered>,
    pass: &mut StopPass,
) -> ((bool, u32), (bool, u32), (bool, u32))
    requires { IsStopPass state.now pass.old }
    ensures { IsStopPass state.now pass.new }
{
    let requested = state.stop_requested(rt, pass);
    let possible = state.stop_possible(rt, pass);
    let nothing = StopToken::<Numbered>::none().stop_possible(rt, pass);
    (requested, possible, nothing)
}

// Adds a source, and drops as many as there are then. Gives the positions.
fn drops_all<R: Wait>(
    rt: &R,
    state: &StopState<Numbered>,
    pass: &mut StopPass,
    source: &mut StopSource,
) -> Option<(u32, u32, u32)>
    requires pass { IsStopPass state.now pass.old }
    requires source { IsSource state.now source.old }
    ensures { IsStopPass state.now pass.new }
{
    if pass.left() < 3 || source.held() != 1 {
        return None;
    }
    let added = state.another(rt, pass, source);
    let first = state.drop_one(rt, pass, source);
    let second = state.drop_one(rt, pass, source);
    Some((added, first, second))
}

// With no source left nothing can stop any more. Gives the positions, the answers, and the number that a
// registration gives back with its stamp.
type Never = (
    Option<(u32, u32, u32)>,
    ((bool, u32), (bool, u32), (bool, u32)),
    Option<(u32, u32)>,
);

fn never_stops<R: Wait>(rt: &R, alloc: Global) -> Result<Never, NoMemory> {
    let (state, mut pass, mut source) = StopState::new(alloc, 1, 1, 40)?;
    let mut keeper = keeper(alloc);
    let dropped = drops_all(rt, &state, &mut pass, &mut source);
    let answers = asks(rt, &state, &mut pass);
    let given_back = late(rt, &state, &mut pass, 9, &mut keeper);
    Ok((dropped, answers, given_back))
}

// A second request finds the first one, and a registration after it is run at once.
type After = (
    Option<Requested>,
    Option<Requested>,
    Option<(u32, u32)>,
    Option<Numbered>,
);

fn after_a_request<R: Wait>(rt: &R, alloc: Global) -> Result<After, NoMemory> {
    let (state, mut pass, mut source) = StopState::new(alloc, 2, 1, 40)?;
    let mut keeper = keeper(alloc);
    if source.held() < 1 {
        return Ok((None, None, None, None));
    }
    let other = state.split_source(&mut source, 1);
    let made = request(rt, &state, &mut pass, &source, &mut keeper);
    let again = request(rt, &state, &mut pass, &other, &mut keeper);
    let ran = late(rt, &state, &mut pass, 9, &mut keeper);
    Ok((made, again, ran, keeper.kept.pop()))
}

#[test]
fn without_sources_nothing_stops(rt: HostRuntime) -> Result<(), Fail> {
    let answers = ((false, 3), (false, 3), (false, 3));
    assert!(rt; never_stops(&rt, rt.alloc())? == (Some((0, 1, 2)), answers, Some((9, 3))));
    Ok(())
}

#[test]
fn what_comes_late_is_run_at_once(rt: HostRuntime) -> Result<(), Fail> {
    let nine = Some(Numbered { id: 0, number: 9 });
    let (made, again) = (Some(Requested::Made(0, 1)), Some(Requested::Already(1)));
    assert!(rt; after_a_request(&rt, rt.alloc())? == (made, again, Some((1, 2)), nine));
    Ok(())
}
