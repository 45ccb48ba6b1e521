//! The single acts, one after the other, and tokens.
ghost use Rattle.std.specs.Prelude.{◌≡◌, ◌+◌, ◌≤◌, IfSome, IfOk, IfErr};
ghost use Rattle.cx_stop.specs.Stops.{IsStopPass, HoldsId, HasRequested, RunsId};

use crate::callers::next_id;
use crate::numbered::Numbered;
use cx_names::NoMemory;
use cx_stop::{Begun, Deregistered, Put, StopPass, StopState};
use std::alloc::Global;
use std::sync::Wait;
use std::test::Fail;

// Registers a number with the pass's next tag. Gives the position where the callback is queued.
fn put<R: Wait>(
    rt: &R,
    state: &StopState<Numbered>,
    pass: &mut StopPass,
    number: u32,
) -> Option<u32>
    requires { IsStopPass state.now pass.old }
    ensures idle { IsStopPass state.now pass.new }
{
    let tag = pass.next_tag();
    if pass.left() < 3 {
        return None;
    }
    let id = next_id(pass)?;
    match state.register_only(rt, pass, tag, Numbered { id, number }) {
        Ok(put) => match put {
            Put::Queued(at) => Some(at),
            Put::Now(_, _) => None,
            Put::Never(_, _) => None,
        },
        Err(_) => None,
    }
}

// Begins the next callback and finishes it. Gives its number and the two positions.
fn begin_and_finish<R: Wait>(
    rt: &R,
    state: &StopState<Numbered>,
    pass: &mut StopPass,
) -> Option<(u32, u32, u32)>
    requires pass { IsStopPass state.now pass.old }
    requires requester { HasRequested state.now pass.old }
    ensures idle { IsStopPass state.now pass.new }
{
    match state.begin_next(rt, pass) {
        Ok(Begun { id, at, value }) => {
            let finish = state.finish(rt, pass, id);
            Some((value.number, at, finish))
        }
        Err(_) => None,
    }
}

// Two callbacks, a request, and the first of them. Gives the positions, and what was run.
type Acts = (
    Option<u32>,
    Option<u32>,
    Option<u32>,
    Option<(u32, u32, u32)>,
);

fn acts<R: Wait>(rt: &R, alloc: Global) -> Result<Acts, NoMemory> {
    let (state, mut pass, source) = StopState::new(alloc, 1, 1, 40)?;
    let first = put(rt, &state, &mut pass, 7);
    let second = put(rt, &state, &mut pass, 8);
    if pass.left() < 1 || source.held() < 1 {
        return Ok((first, second, None, None));
    }
    match state.request_only(rt, &mut pass, &source) {
        Ok(at) => {
            let ran = begin_and_finish(rt, &state, &mut pass);
            Ok((first, second, Some(at), ran))
        }
        Err(_) => Ok((first, second, None, None)),
    }
}

// Deregisters a callback that its pass holds. Gives what that answers.
fn held<R: Wait>(rt: &R, alloc: Global) -> Result<Option<Deregistered<Numbered>>, NoMemory> {
    let (state, mut pass, _) = StopState::new(alloc, 1, 1, 40)?;
    match state.register_only(rt, &mut pass, 5, Numbered { id: 5, number: 7 }) {
        Ok(put) => match put {
            Put::Queued(_) => Ok(Some(state.deregister_only(rt, &mut pass, 5))),
            Put::Now(_, _) => Ok(None),
            Put::Never(_, _) => Ok(None),
        },
        Err(_) => Ok(None),
    }
}

// What a token and its copy answer.
fn tokens<R: Wait>(rt: &R, alloc: Global) -> Result<((bool, u32), (bool, u32)), NoMemory> {
    let (state, mut pass, _) = StopState::<Numbered>::new(alloc, 1, 1, 40)?;
    let token = state.token();
    let copy = token;
    let requested = token.stop_requested(rt, &mut pass);
    let possible = copy.stop_possible(rt, &mut pass);
    Ok((requested, possible))
}

#[test]
fn acts_are_made_one_by_one(rt: HostRuntime) -> Result<(), Fail> {
    let want = (Some(0), Some(1), Some(2), Some((7, 3, 4)));
    assert!(rt; acts(&rt, rt.alloc())? == want);
    Ok(())
}

#[test]
fn a_held_callback_is_removed(rt: HostRuntime) -> Result<(), Fail> {
    let seven = Numbered { id: 5, number: 7 };
    assert!(rt; held(&rt, rt.alloc())? == Some(Deregistered::Removed(seven, 1)));
    Ok(())
}

#[test]
fn tokens_are_copied(rt: HostRuntime) -> Result<(), Fail> {
    assert!(rt; tokens(&rt, rt.alloc())? == ((false, 0), (true, 0)));
    Ok(())
}
