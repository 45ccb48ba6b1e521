//! Calls that are made where the pass may make them.
ghost use Rattle.std.specs.Prelude.{◌≡◌, ◌+◌, ◌*◌, ◌<◌, ◌≤◌, ℕ, IfSome, IfOk};
ghost use Rattle.cx_stop.specs.Stops.{IsStopPass, IsSource, IsCallback};

use crate::numbered::Numbered;
use cx_stop::{Keeper, Registered, Requested, StopCallback, StopPass, StopSource, StopState};
use std::sync::Wait;

// The ID of the pass's next callback.
pub(crate) fn next_id(pass: &StopPass) -> Option<u32>
    ensures { IfSome result (λ id. (pass.now.next_tag < 4096) × (id ≡ pass.now.pass.number.0 * 4096 + pass.now.next_tag)) }
{
    let (by, tag) = (pass.number().0, pass.next_tag());
    if by < 256 && tag < 4096 {
        Some(by * 4096 + tag)
    } else {
        None
    }
}

// Registers a number with the pass's next tag, and gives the registration.
pub(crate) fn queue<R: Wait>(
    rt: &R,
    state: &StopState<Numbered>,
    pass: &mut StopPass,
    number: u32,
    keeper: &mut Keeper<Numbered>,
) -> Option<StopCallback>
    requires { IsStopPass state.now pass.old }
    ensures idle { IsStopPass state.now pass.new }
    ensures callback { IfSome result (λ c. IsCallback state.now c) }
{
    let tag = pass.next_tag();
    if pass.left() < 4 {
        return None;
    }
    let id = next_id(pass)?;
    match state.register(rt, pass, tag, Numbered { id, number }, keeper) {
        Ok(registered) => match registered {
            Registered::Queued(callback, _) => Some(callback),
            Registered::RanNow(_, _) => None,
            Registered::NeverStops(_, _) => None,
        },
        Err(_) => None,
    }
}

// Registers a number where no callback is to be queued. Gives the two positions where it was run at once,
// and the number and the stamp where none is ever run.
pub(crate) fn late<R: Wait>(
    rt: &R,
    state: &StopState<Numbered>,
    pass: &mut StopPass,
    number: u32,
    keeper: &mut Keeper<Numbered>,
) -> Option<(u32, u32)>
    requires { IsStopPass state.now pass.old }
    ensures idle { IsStopPass state.now pass.new }
{
    let tag = pass.next_tag();
    if pass.left() < 4 {
        return None;
    }
    let id = next_id(pass)?;
    match state.register(rt, pass, tag, Numbered { id, number }, keeper) {
        Ok(registered) => match registered {
            Registered::Queued(_, _) => None,
            Registered::RanNow(begin, finish) => Some((begin, finish)),
            Registered::NeverStops(value, at) => Some((value.number, at)),
        },
        Err(_) => None,
    }
}

// Requests the stop.
pub(crate) fn request<R: Wait>(
    rt: &R,
    state: &StopState<Numbered>,
    pass: &mut StopPass,
    source: &StopSource,
    keeper: &mut Keeper<Numbered>,
) -> Option<Requested>
    requires pass { IsStopPass state.now pass.old }
    requires source { IsSource state.now source.now }
    ensures idle { IsStopPass state.now pass.new }
{
    if pass.left() < 1 || source.held() < 1 {
        return None;
    }
    Some(state.request_stop(rt, pass, source, keeper))
}
