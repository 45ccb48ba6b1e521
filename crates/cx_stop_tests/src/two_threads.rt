//! A callback that holds its thread until another thread deregisters it.
ghost use Rattle.std.specs.Prelude.{◌≡◌, ◌≤◌};
ghost use Rattle.std.specs.Arc.{arc_value};
ghost use Rattle.cx_stop.specs.Stops.{IsStopPass, IsCallback};

use crate::callers::queue;
use crate::numbered::{Numbered, keeper};
use cx_names::NoMemory;
use cx_stop::{Deregistered, Requested, Runs, StopCallback, StopPass, StopState};
use std::alloc::Global;
use std::sync::atomic::{AtomicBool, Ordering};
use std::sync::{Arc, Wait};
use std::test::Fail;
use std::thread;
use std::thread::{JoinHandle, Threads};

// How often one looks for the other, until it gives up.
const TURNS: u32 = 200_000_000;

// How often a callback looks on once it was met, so that the other comes to wait for it.
const LINGERS: u32 = 2_000_000;

// Where the callback and who deregisters it show themselves to each other.
#[derive(Drop)]
struct Meeting {
    running: AtomicBool,
    called: AtomicBool,
}

// Whether the flag is raised before one gives up.
fn waits_for(flag: &AtomicBool) -> bool {
    for _ in 0..TURNS {
        if flag.load(Ordering::SeqCst) {
            return true;
        }
    }
    false
}

// Runs a callback by holding its thread until another one is about to deregister it.
#[derive(Drop)]
struct Holder {
    meeting: Arc<Meeting, Global>,
    met: bool,
}

impl Runs<Numbered> for Holder {
    ghost since = { λ r v q w. Unit {0} };

    ghost serves = { λ r i n. Unit {0} };

    fn run<R: Wait>(&mut self, rt: &R, at: &mut StopPass, id: u32, begin: u32, cb: Numbered) {
        let _ = (id, begin);
        let _ = rt;
        let _held = cb;
        self.meeting.running.store(true, Ordering::SeqCst);
        self.met = waits_for(&self.meeting.called);
        for _ in 0..LINGERS {
            let _raised = self.meeting.called.load(Ordering::SeqCst);
        }
    }

    fn finished(&mut self, id: u32, finish: u32) {
        let _ = (id, finish);
    }

    ghost since_self = { λ r v w s. tt };

    ghost since_on = { λ a b c u v w s t. tt };
}

// A thread that deregisters the callback while it runs.
fn leaver<R: Threads + Wait + Copy + Send + 'static>(
    rt: &R,
    state: Arc<StopState<Numbered>, Global>,
    pass: StopPass,
    callback: StopCallback,
    meeting: Arc<Meeting, Global>,
) -> Option<JoinHandle<Deregistered<Numbered>>>
    requires { IsStopPass (arc_value state) pass × IsCallback (arc_value state) callback }
{
    let inner = *rt;
    thread::spawn(
        rt,
        move || -> Deregistered<Numbered>
            requires { IsStopPass (arc_value state) pass × IsCallback (arc_value state) callback }
        {
            let mut mine = pass;
            let _met = waits_for(&meeting.running);
            meeting.called.store(true, Ordering::SeqCst);
            state.deregister(&inner, &mut mine, callback)
        },
    )
    .ok()
}

// Requests a stop while another thread deregisters the callback. Gives whether they met, what the request
// answers, and what the deregistration.
type Met = (bool, Requested, Deregistered<Numbered>);

fn held<R: Threads + Wait + Copy + Send + 'static>(
    rt: &R,
    alloc: Global,
) -> Result<Option<Met>, NoMemory> {
    let meeting = Meeting {
        running: AtomicBool::new(false),
        called: AtomicBool::new(false),
    };
    let meeting = Arc::new(alloc, meeting)?;
    let (state, mut first, source) = StopState::new(alloc, 1, 2, 40)?;
    let second = state.split(&mut first, 4);
    let Some(callback) = queue(rt, &state, &mut first, 7, &mut keeper(alloc)) else {
        return Ok(None);
    };
    if first.left() < 1 || source.held() < 1 {
        return Ok(None);
    }
    let state = Arc::new(alloc, state)?;
    let (theirs, place) = (Arc::try_clone(&state)?, Arc::try_clone(&meeting)?);
    let Some(leaver) = leaver(rt, theirs, second, callback, place) else {
        return Ok(None);
    };
    let mut holder = Holder {
        meeting,
        met: false,
    };
    let made = state.request_stop(rt, &mut first, &source, &mut holder);
    Ok(Some((holder.met, made, leaver.join(rt))))
}

#[test]
fn a_deregistration_waits_for_a_running_callback(rt: HostRuntime) -> Result<(), Fail> {
    for _ in 0..20 {
        let Some((met, made, left)) = held(&rt, rt.alloc())? else {
            return Err(NoMemory.into());
        };
        assert!(rt; met);
        assert!(rt; matches!(made, Requested::Made(1, _)));
        assert!(rt; left == Deregistered::Ran(4));
    }
    Ok(())
}
