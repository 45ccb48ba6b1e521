//! Takes of a turn.
ghost use Rattle.std.specs.Prelude.{◌≡◌, true, false, ◌≤◌, IsSome, IfSome, IfNone};
ghost use Rattle.cx_machine.specs.Acts.{at_entry};
ghost use Rattle.cx_machine.specs.Semaphore.{Semaphore, step};
ghost use Rattle.cx_turn.specs.declared.view.View.{View};
ghost use Rattle.cx_turn.specs.Passes.{IsPassOf, IsPassWith};
ghost use Rattle.cx_loops.specs.Turns.{Acts, IsRefused, Made, counting, means};

use crate::taken::{Taken, Want, begin, made_since};
use cx_machine::{Entry, Machine, Op, SemaphoreMachine, SemaphoreState};
use cx_names::ThreadNo;
use cx_turn::{Pass, Turn};
use std::alloc::Global;
use std::sync::Wait;
use std::time::Clock;

/// A semaphore behind a turn.
pub type Gate = Turn<SemaphoreMachine, SemaphoreState>;

// The release of one, if the semaphore enables it.
fn release_of(state: &SemaphoreState, by: ThreadNo) -> Option<Entry>
    ensures enabled { IfSome result (λ e. IsSome (at_entry step state.now e) × (e.by ≡ by)) }
    ensures refused { IfNone result (IsRefused state.now true) }
{
    match state.reply(by, Op::Release, 1, 0) {
        Some(reply) => Some(Entry {
            by,
            op: Op::Release,
            a: 1,
            b: 0,
            reply,
        }),
        None => None,
    }
}

// The acquisition, if the semaphore enables it.
fn acquisition_of(state: &SemaphoreState, by: ThreadNo) -> Option<Entry>
    ensures enabled { IfSome result (λ e. IsSome (at_entry step state.now e) × (e.by ≡ by)) }
    ensures refused { IfNone result (IsRefused state.now false) }
{
    match state.reply(by, Op::Acquire, 0, 0) {
        Some(reply) => Some(Entry {
            by,
            op: Op::Acquire,
            a: 0,
            b: 0,
            reply,
        }),
        None => None,
    }
}

fn wish(state: &SemaphoreState, by: ThreadNo, release: bool) -> Option<Entry>
    ensures enabled { IfSome result (λ e. IsSome (at_entry step state.now e) × (e.by ≡ by)) }
    ensures refused { IfNone result (IsRefused state.now release) }
{
    if release {
        release_of(state, by)
    } else {
        acquisition_of(state, by)
    }
}

/// Takes the turn, makes the change if it is enabled, and gives the turn up: the release of one, or
/// the acquisition. Returns whether the change was made.
pub fn act<R: Wait>(rt: &R, gate: &Gate, pass: &mut Pass<SemaphoreMachine>, release: bool) -> bool
    requires pass { IsPassOf counting means gate.now pass.old }
    requires left { 1 ≤ pass.old.left }
    ensures { (v : View Semaphore) → IsPassWith counting means gate.now pass.old v → (w : View Semaphore) × IsPassWith counting means gate.now pass.new w × Acts v w release result }
{
    let mut held = gate.take(rt, pass);
    match wish(held.state(), held.number(), release) {
        Some(entry) => {
            let _at = held.change(entry);
            held.leave();
            true
        }
        None => {
            held.leave();
            false
        }
    }
}

/// Takes the turn `n` times, each time for one change: in turn a release and an acquisition of the
/// semaphore. Returns how many changes were made: fewer than `n` only where the next one was
/// refused.
pub fn made_in<R: Wait>(rt: &R, gate: &Gate, pass: &mut Pass<SemaphoreMachine>, n: u32) -> u32
    requires pass { IsPassOf counting means gate.now pass.old }
    requires left { n ≤ pass.old.left }
    ensures { (v : View Semaphore) → IsPassWith counting means gate.now pass.old v → (w : View Semaphore) × IsPassWith counting means gate.now pass.new w × Made v w n result }
{
    for i in 0..n {
        if !act(rt, gate, pass, i % 2 == 0) {
            return i;
        }
    }
    n
}

/// One thread takes a turn `n` times, each time for one change.
pub fn alone<R: Wait + Clock>(rt: &R, alloc: Global, n: u32) -> Result<Taken, Want>
    requires { n ≤ 100000000 }
{
    let state = SemaphoreState::new(0, 1);
    let (gate, mut pass) = Gate::new(alloc, state, 1, n)?;
    let start = begin(rt)?;
    let made = made_in(rt, &gate, &mut pass, n);
    made_since(rt, start, made)
}
