//! Callers of cells round a semaphore's and a latch's state.
ghost use Rattle.std.specs.Prelude.{◌≡◌, ◌≤◌, ◌<◌, IfOk};
ghost use Rattle.std.specs.Arc.{arc_value};
ghost use Rattle.cx_object_tests.specs.GoesOn.{kept, counting};
ghost use Rattle.cx_machine.specs.Semaphore.{opening};
ghost use Rattle.cx_turn.specs.Views.{opening_view};
ghost use Rattle.cx_cell.specs.Cells.{IsCellPass, IsCellPassWith, cell_seats};

use cx_cell::Cell;
use cx_machine::{LatchMachine, LatchState, Op, SemaphoreMachine, SemaphoreState};
use cx_names::{NoMemory, Reply, ThreadNo};
use cx_turn::{Either, Pass};
use std::alloc::Global;
use std::sync::{Arc, Wait};
use std::test::Fail;
use std::thread;
use std::thread::{JoinHandle, Threads};
use std::time::{Clock, Duration};

type Gate = Cell<SemaphoreMachine, SemaphoreState>;

type Token = Pass<SemaphoreMachine>;

type Answer = Option<(Reply, u32)>;

// How many milliseconds a caller may take until it is in the queue.
const PATIENCE: u32 = 10_000;

// A semaphore with this counter, whose greatest value is 2.
fn semaphore(alloc: Global, count: u32, seats: u32) -> Result<(Gate, Token), NoMemory>
    requires { (1 ≤ seats) × (seats ≤ 256) }
    ensures { IfOk result (λ t. IsCellPassWith kept counting t.0 t.1 (opening_view (opening count 2) seats 10 0) × (cell_seats kept t.0 ≡ seats)) }
{
    Gate::new(alloc, SemaphoreState::new(count, 2), seats, 10)
}

// What an attempt to acquire answers, at a semaphore with this counter.
fn try_acquire<R: Wait>(rt: &R, alloc: Global, count: u32) -> Result<Answer, NoMemory> {
    let (cell, mut pass) = semaphore(alloc, count, 1)?;
    Ok(cell.try_change(rt, &mut pass, Op::Acquire, 0, 0))
}

// What an acquisition that need not wait answers.
fn acquire<R: Wait>(rt: &R, alloc: Global) -> Result<(Reply, u32), NoMemory> {
    let (cell, mut pass) = semaphore(alloc, 1, 1)?;
    Ok(cell.wait_change(rt, &mut pass, Op::Acquire, 0, 0))
}

// Whether a look finds the counter 0.
fn look_for_zero<R: Wait>(rt: &R, alloc: Global, count: u32) -> Result<Answer, NoMemory> {
    let (cell, mut pass) = semaphore(alloc, count, 1)?;
    Ok(cell.look(rt, &mut pass, Op::TryAcquire, 0, 0))
}

// What a release of so many answers at a semaphore whose counter is 0.
fn release<R: Wait>(rt: &R, alloc: Global, n: i64) -> Result<Option<Either>, NoMemory> {
    let (cell, mut pass) = semaphore(alloc, 0, 1)?;
    Ok(cell.try_either(rt, &mut pass, Op::Release, Op::Release, n, 0))
}

// An acquisition, or a look that finds the counter 0, whichever comes first.
fn acquire_or_look<R: Wait>(rt: &R, alloc: Global, count: u32) -> Result<Either, NoMemory> {
    let (cell, mut pass) = semaphore(alloc, count, 1)?;
    Ok(cell.wait_either(rt, &mut pass, Op::TryAcquire, Op::TryAcquire))
}

// A wait at a latch whose counter is 0.
fn wait_at_open_latch<R: Wait>(rt: &R, alloc: Global) -> Result<(Reply, u32), NoMemory> {
    let state = LatchState::new(0);
    let (cell, mut pass) = Cell::<LatchMachine, LatchState>::new(alloc, state, 1, 4)?;
    Ok(cell.wait_look(rt, &mut pass, Op::Wait, 0, 0))
}

// A second pass is split off and taken in, and the cell ends.
fn end_with_two(alloc: Global) -> Result<SemaphoreState, NoMemory> {
    let (cell, mut first) = semaphore(alloc, 1, 2)?;
    let mut second = cell.split(&mut first, 1);
    cell.meet(&mut first, &mut second);
    cell.give(&mut first, &mut second, 0);
    cell.join(&mut first, second);
    Ok(cell.close(first))
}

// A thread that acquires once.
fn sleeper<R: Threads + Wait + Copy + Send + 'static>(
    rt: &R,
    cell: Arc<Gate, Global>,
    pass: Token,
) -> Option<JoinHandle<(Reply, u32)>>
    requires { IsCellPass kept counting (arc_value cell) pass × (1 ≤ pass.left) }
{
    let inner = *rt;
    thread::spawn(
        rt,
        move || -> (Reply, u32)
            requires { IsCellPass kept counting (arc_value cell) pass × (1 ≤ pass.left) }
        {
            let mut mine = pass;
            cell.wait_change(&inner, &mut mine, Op::Acquire, 0, 0)
        },
    )
    .ok()
}

// Whether the caller of this number comes into the queue, and isn't marked as woken there.
fn falls_asleep<R: Wait + Clock>(rt: &R, cell: &Gate, pass: &mut Token, seat: ThreadNo) -> bool
    requires { IsCellPass kept counting cell.now pass.old }
    ensures { IsCellPass kept counting cell.now pass.new }
{
    for _ in 0..PATIENCE {
        if let Some(waiter) = cell.waiter(rt, pass, seat) {
            return !waiter.woken;
        }
        thread::sleep(rt, Duration::from_millis(1));
    }
    false
}

// Releases one, if the pass may.
fn release_one<R: Wait>(rt: &R, cell: &Gate, pass: &mut Token) -> Answer
    requires { IsCellPass kept counting cell.now pass.old }
{
    if pass.left() == 0 {
        return None;
    }
    cell.try_change(rt, pass, Op::Release, 1, 0)
}

// A thread sleeps until another releases one. Gives what both calls answer, if it fell asleep.
fn wake_one<R: Threads + Wait + Clock + Copy + Send + 'static>(
    rt: &R,
    alloc: Global,
) -> Result<Option<(Answer, (Reply, u32))>, NoMemory> {
    let (cell, mut first) = semaphore(alloc, 0, 2)?;
    let second = cell.split(&mut first, 1);
    let cell = Arc::new(alloc, cell)?;
    let theirs = Arc::try_clone(&cell)?;
    let Some(sleeper) = sleeper(rt, theirs, second) else {
        return Ok(None);
    };
    let asleep = falls_asleep(rt, &cell, &mut first, ThreadNo(1));
    let released = release_one(rt, &cell, &mut first);
    let acquired = sleeper.join(rt);
    Ok(if asleep {
        Some((released, acquired))
    } else {
        None
    })
}

#[test]
fn changes_where_it_may(rt: HostRuntime) -> Result<(), Fail> {
    assert!(rt; try_acquire(&rt, rt.alloc(), 0)? == None);
    assert!(rt; try_acquire(&rt, rt.alloc(), 1)? == Some((Reply::Ok, 0)));
    assert!(rt; acquire(&rt, rt.alloc())? == (Reply::Ok, 0));
    Ok(())
}

#[test]
fn looks_where_it_is_shown(rt: HostRuntime) -> Result<(), Fail> {
    assert!(rt; look_for_zero(&rt, rt.alloc(), 0)? == Some((Reply::False, 0)));
    assert!(rt; look_for_zero(&rt, rt.alloc(), 1)? == None);
    assert!(rt; wait_at_open_latch(&rt, rt.alloc())? == (Reply::Ok, 0));
    Ok(())
}

#[test]
fn does_either(rt: HostRuntime) -> Result<(), Fail> {
    assert!(rt; release(&rt, rt.alloc(), 2)? == Some(Either::Made(Reply::Ok, 0)));
    assert!(rt; release(&rt, rt.alloc(), 3)? == Some(Either::Seen(Reply::Over, 0)));
    assert!(rt; acquire_or_look(&rt, rt.alloc(), 1)? == Either::Made(Reply::True, 0));
    assert!(rt; acquire_or_look(&rt, rt.alloc(), 0)? == Either::Seen(Reply::False, 0));
    Ok(())
}

#[test]
fn ends_with_every_pass_taken_in(rt: HostRuntime) -> Result<(), Fail> {
    let state = end_with_two(rt.alloc())?;
    assert!(rt; state.enables(ThreadNo(0), Op::Acquire, Some(0), 0, Reply::Ok));
    assert!(rt; !state.enables(ThreadNo(0), Op::Release, Some(2), 0, Reply::Ok));
    Ok(())
}

#[test]
fn a_second_thread_wakes_the_first(rt: HostRuntime) -> Result<(), Fail> {
    let Some((released, acquired)) = wake_one(&rt, rt.alloc())? else {
        assert!(rt; false);
        return Ok(());
    };
    assert!(rt; released == Some((Reply::Ok, 0)));
    assert!(rt; acquired == (Reply::Ok, 1));
    Ok(())
}
