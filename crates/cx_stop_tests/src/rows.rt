//! The values 7 and 8, which come back or are run, on three states.
use crate::callers::{queue, request};
use crate::numbered::{Numbered, keeper};
use cx_names::NoMemory;
use cx_stop::{Deregistered, Requested, StopState};
use std::alloc::Global;
use std::sync::Wait;
use std::test::Fail;

// One callback, which another pass deregisters; then a request. Gives what both answer, and how many
// callbacks were run.
type One = (Deregistered<Numbered>, Requested, usize);

fn one_removed<R: Wait>(rt: &R, alloc: Global) -> Result<Option<One>, NoMemory> {
    let (state, mut first, source) = StopState::new(alloc, 1, 2, 40)?;
    let mut keeper = keeper(alloc);
    let mut second = state.split(&mut first, 4);
    let Some(callback) = queue(rt, &state, &mut first, 7, &mut keeper) else {
        return Ok(None);
    };
    let removed = state.deregister(rt, &mut second, callback);
    let Some(made) = request(rt, &state, &mut first, &source, &mut keeper) else {
        return Ok(None);
    };
    Ok(Some((removed, made, keeper.kept.len())))
}

// Two callbacks, which are deregistered, the second one first.
type Two = (Deregistered<Numbered>, Deregistered<Numbered>);

fn two_removed<R: Wait>(rt: &R, alloc: Global) -> Result<Option<Two>, NoMemory> {
    let (state, mut pass, _) = StopState::new(alloc, 1, 1, 40)?;
    let mut keeper = keeper(alloc);
    let Some(first) = queue(rt, &state, &mut pass, 7, &mut keeper) else {
        return Ok(None);
    };
    let Some(second) = queue(rt, &state, &mut pass, 8, &mut keeper) else {
        return Ok(None);
    };
    let of_second = state.deregister(rt, &mut pass, second);
    let of_first = state.deregister(rt, &mut pass, first);
    Ok(Some((of_second, of_first)))
}

// Two callbacks, which a request runs. Gives what it answers, and what was run last and before.
type Run = (Requested, Option<Numbered>, Option<Numbered>);

fn two_run<R: Wait>(rt: &R, alloc: Global) -> Result<Option<Run>, NoMemory> {
    let (state, mut pass, source) = StopState::new(alloc, 1, 1, 40)?;
    let mut keeper = keeper(alloc);
    let Some(_) = queue(rt, &state, &mut pass, 7, &mut keeper) else {
        return Ok(None);
    };
    let Some(_) = queue(rt, &state, &mut pass, 8, &mut keeper) else {
        return Ok(None);
    };
    let Some(made) = request(rt, &state, &mut pass, &source, &mut keeper) else {
        return Ok(None);
    };
    let last = keeper.kept.pop();
    let before = keeper.kept.pop();
    Ok(Some((made, last, before)))
}

#[test]
fn a_removed_callback_is_not_run(rt: HostRuntime) -> Result<(), Fail> {
    let seven = Numbered { id: 0, number: 7 };
    let want = (Deregistered::Removed(seven, 1), Requested::Made(2, 3), 0);
    assert!(rt; one_removed(&rt, rt.alloc())? == Some(want));
    Ok(())
}

#[test]
fn removed_callbacks_give_their_values(rt: HostRuntime) -> Result<(), Fail> {
    let (seven, eight) = (Numbered { id: 0, number: 7 }, Numbered { id: 1, number: 8 });
    let want = (
        Deregistered::Removed(eight, 2),
        Deregistered::Removed(seven, 3),
    );
    assert!(rt; two_removed(&rt, rt.alloc())? == Some(want));
    Ok(())
}

#[test]
fn a_request_runs_each_with_its_value(rt: HostRuntime) -> Result<(), Fail> {
    let (seven, eight) = (Numbered { id: 0, number: 7 }, Numbered { id: 1, number: 8 });
    let want = (Requested::Made(2, 7), Some(eight), Some(seven));
    assert!(rt; two_run(&rt, rt.alloc())? == Some(want));
    Ok(())
}
