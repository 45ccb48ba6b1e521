ghost use Rattle.std.specs.Prelude.{◌≡◌, ◌≤◌, true, vec_len};
ghost use Rattle.cx_scene.specs.Scene.{scene_of};
ghost use Rattle.cx_run_tests.specs.Runnable.{is_runnable};

use crate::counting::Counting;
use crate::plans::{A, B, more_kinds, one_after_the_other, two_calls, two_units};
use cx_history::Record;
use cx_io::{Listed, Real, Spawner};
use cx_items::{Control, Item};
use cx_names::{NoMemory, Reply, ThreadNo};
use cx_run::run_on;
use cx_scene::Plan;
use cx_work::{Gate, Objects, Open, Work};
use std::alloc::Global;
use std::sync::atomic::{AtomicBool, Ordering};
use std::sync::{Arc, Wait};
use std::thread::Threads;

/// What tests compare of an item: what it is, and the number of its object, thread or reply and its position.
fn seen(item: Option<&Item>) -> (u32, u32, u32) {
    match item {
        Some(Item::Change(o, at, _)) => (1, o.0, *at),
        Some(Item::Look(o, look)) => (2, o.0, look.at),
        Some(Item::Control(Control::Start(u, true))) => (3, u.0, 0),
        Some(Item::Control(Control::Join(u))) => (4, u.0, 0),
        Some(Item::Said(Reply::Ok)) => (5, 0, 0),
        Some(Item::Control(Control::Start(u, false))) => (6, u.0, 0),
        Some(Item::Said(Reply::NoThread)) => (7, 0, 0),
        Some(Item::Said(Reply::InvalidArgument)) => (8, 0, 0),
        Some(_) => (9, 0, 0),
        None => (0, 0, 0),
    }
}

/// Item `i` of thread `t`.
fn item_of(record: &Record, t: usize, i: usize) -> (u32, u32, u32) {
    match record.lists.get(t) {
        Some(list) => seen(list.items.items.get(i)),
        None => (0, 0, 0),
    }
}

/// Whether thread `t` was started.
fn is_started(record: &Record, t: usize) -> bool {
    match record.lists.get(t) {
        Some(list) => list.started,
        None => false,
    }
}

/// The record of a run on the threads of this spawner.
fn run_by<G: Gate + Send + Sync, P: Spawner<Work<G>>, R: Threads + Wait + Copy + Send + 'static>(
    rt: &R,
    alloc: Global,
    plan: &Plan,
    spawner: &mut P,
    gate: &Arc<G, Global>,
) -> Result<Record, NoMemory>
    requires runs { is_runnable (scene_of plan.now) ≡ true }
    requires threads { (1 ≤ vec_len plan.now.threads) × (vec_len plan.now.threads ≤ 64) }
{
    let (objects, passes) = Objects::make(alloc, plan)?;
    let (record, _fronts) = run_on(rt, alloc, &objects, passes, spawner, gate)?;
    Ok(record)
}

#[test]
fn two_threads_run(rt: HostRuntime) -> Result<(), NoMemory> {
    let plan = one_after_the_other(rt.alloc())?;
    let gate = Arc::new(rt.alloc(), Open)?;
    let mut real = Real::new(rt.alloc());
    let record = run_by(&rt, rt.alloc(), &plan, &mut real, &gate)?;
    assert_eq!(rt; record.lists.len(), 2);
    let main = [
        (3, 1, 0),
        (5, 0, 0),
        (1, 1, 1),
        (5, 0, 0),
        (1, 0, 2),
        (5, 0, 0),
        (1, 0, 3),
        (5, 0, 0),
        (4, 1, 0),
        (5, 0, 0),
        (0, 0, 0),
    ];
    for i in 0..11 {
        assert_eq!(rt; item_of(&record, 0, i), main[i]);
    }
    let other = [
        (1, 0, 0),
        (5, 0, 0),
        (1, 0, 1),
        (5, 0, 0),
        (1, 1, 0),
        (5, 0, 0),
        (0, 0, 0),
    ];
    for i in 0..7 {
        assert_eq!(rt; item_of(&record, 1, i), other[i]);
    }
    Ok(())
}

#[test]
fn two_threads_carry_six_steps(rt: HostRuntime) -> Result<(), NoMemory> {
    let plan = two_units(rt.alloc())?;
    let gate = Arc::new(rt.alloc(), Open)?;
    let mut counting = Counting::new(rt.alloc());
    let record = run_by(&rt, rt.alloc(), &plan, &mut counting, &gate)?;
    let main = [
        (3, 1, 0),
        (5, 0, 0),
        (3, 2, 0),
        (5, 0, 0),
        (1, 1, 0),
        (5, 0, 0),
        (4, 1, 0),
        (5, 0, 0),
        (4, 2, 0),
        (5, 0, 0),
        (0, 0, 0),
    ];
    for i in 0..11 {
        assert_eq!(rt; item_of(&record, 0, i), main[i]);
    }
    assert_eq!(rt; counting.started, 2);
    assert_eq!(rt; counting.joined, 2);
    assert_eq!(rt; counting.carried, 6);
    Ok(())
}

#[test]
fn a_phase_is_completed(rt: HostRuntime) -> Result<(), NoMemory> {
    let plan = more_kinds(rt.alloc())?;
    let gate = Arc::new(rt.alloc(), Open)?;
    let mut counting = Counting::new(rt.alloc());
    let record = run_by(&rt, rt.alloc(), &plan, &mut counting, &gate)?;
    let other = [
        (1, 0, 0),
        (5, 0, 0),
        (1, 0, 1),
        (5, 0, 0),
        (1, 1, 0),
        (1, 1, 1),
        (9, 0, 0),
        (1, 2, 0),
        (1, 2, 1),
        (2, 2, 2),
        (5, 0, 0),
        (0, 0, 0),
    ];
    for i in 0..12 {
        assert_eq!(rt; item_of(&record, 1, i), other[i]);
    }
    assert_eq!(rt; counting.started, 1);
    assert_eq!(rt; counting.joined, 1);
    assert_eq!(rt; counting.carried, 6);
    Ok(())
}

#[test]
fn a_refused_start_is_recorded(rt: HostRuntime) -> Result<(), NoMemory> {
    let alloc = rt.alloc();
    let plan = two_calls(alloc)?;
    let gate = Arc::new(alloc, Open)?;
    let mut listed = Listed::new(alloc, vec![in alloc; 2]?);
    let record = run_by(&rt, alloc, &plan, &mut listed, &gate)?;
    let main = [
        (3, 1, 0),
        (5, 0, 0),
        (6, 2, 0),
        (7, 0, 0),
        (4, 1, 0),
        (5, 0, 0),
        (8, 0, 0),
        (0, 0, 0),
    ];
    for i in 0..8 {
        assert_eq!(rt; item_of(&record, 0, i), main[i]);
    }
    assert_eq!(rt; item_of(&record, 1, 0), (1, 0, 0));
    assert_eq!(rt; item_of(&record, 2, 0), (0, 0, 0));
    assert!(rt; is_started(&record, 1));
    assert!(rt; !is_started(&record, 2));
    Ok(())
}

/// How often a thread looks for the other one, until it gives up.
const TURNS: u32 = 200_000_000;

/// Holds each of the threads `a` and `b` after its first call, until the other one has made its own.
#[derive(Drop)]
struct Meeting {
    a: AtomicBool,
    b: AtomicBool,
    given_up: AtomicBool,
}

impl Meeting {
    /// Waits until the flag is up, or gives up.
    fn wait_for(&self, flag: &AtomicBool) {
        for _ in 0..TURNS {
            if flag.load(Ordering::SeqCst) {
                return;
            }
        }
        self.given_up.store(true, Ordering::SeqCst);
    }
}

impl Gate for Meeting {
    fn before(&self, thread: ThreadNo, call: u32) {
        let _ = (thread, call);
    }

    fn after(&self, thread: ThreadNo, call: u32) {
        if call == 0 && thread == A {
            self.a.store(true, Ordering::SeqCst);
            self.wait_for(&self.b);
        }
        if call == 0 && thread == B {
            self.b.store(true, Ordering::SeqCst);
            self.wait_for(&self.a);
        }
    }
}

#[test]
fn two_calls_meet(rt: HostRuntime) -> Result<(), NoMemory> {
    let plan = two_calls(rt.alloc())?;
    let meeting = Meeting {
        a: AtomicBool::new(false),
        b: AtomicBool::new(false),
        given_up: AtomicBool::new(false),
    };
    let gate = Arc::new(rt.alloc(), meeting)?;
    let mut real = Real::new(rt.alloc());
    let record = run_by(&rt, rt.alloc(), &plan, &mut real, &gate)?;
    assert_eq!(rt; item_of(&record, 1, 0), (1, 0, 0));
    assert_eq!(rt; item_of(&record, 2, 0), (1, 1, 0));
    assert!(rt; gate.a.load(Ordering::SeqCst));
    assert!(rt; gate.b.load(Ordering::SeqCst));
    assert!(rt; !gate.given_up.load(Ordering::SeqCst));
    Ok(())
}
