ghost use Rattle.std.specs.Prelude.{◌≡◌, ◌≤◌, ◌<◌, ◌+◌, ℕ};
ghost use Rattle.std.specs.Arc.{arc_value};
ghost use Rattle.cx_machine.specs.Semaphore as semaphore;
ghost use Rattle.cx_turn.specs.declared.view.View.{View};
ghost use Rattle.cx_sync.specs.Sync.{IsSemaphorePass, IsSemaphorePassWith, semaphore_seats, IsLatchPass};

use cx_names::NoMemory;
use cx_sync::{Latch, LatchPass, Over, Semaphore, SemaphorePass, Taking};
use std::alloc::Global;
use std::sync::{Arc, Wait};
use std::test::Fail;
use std::thread;
use std::thread::{JoinHandle, Threads};
use std::time::{Clock, Duration};

const SLEEPERS: u32 = 8;

// What the four calls of the row answer, in order.
type Row = (Result<u32, Over>, Result<u32, Over>, u32, Taking, Taking);

fn row<R: Wait>(rt: &R, alloc: Global) -> Result<Row, NoMemory> {
    let (gate, mut pass) = Semaphore::new(alloc, 0, 2, 2, 10)?;
    let over = gate.release(rt, &mut pass, 3);
    let released = gate.release(rt, &mut pass, 2);
    let acquired = gate.acquire(rt, &mut pass);
    let taken = gate.try_acquire(rt, &mut pass);
    let zero = gate.try_acquire(rt, &mut pass);
    Ok((over, released, acquired, taken, zero))
}

// A thread that acquires once.
fn sleeper<R: Threads + Wait + Copy + Send + 'static>(
    rt: &R,
    gate: Arc<Semaphore, Global>,
    pass: SemaphorePass,
) -> Option<JoinHandle<u32>>
    requires { IsSemaphorePass (arc_value gate) pass × (1 ≤ pass.left) }
{
    let inner = *rt;
    thread::spawn(
        rt,
        move || -> u32
            requires { IsSemaphorePass (arc_value gate) pass × (1 ≤ pass.left) }
        {
            let mut mine = pass;
            gate.acquire(&inner, &mut mine)
        },
    )
    .ok()
}

// Releases one, if the pass may.
fn release_one<R: Wait>(rt: &R, gate: &Semaphore, pass: &mut SemaphorePass) -> bool
    requires { IsSemaphorePass gate.now pass.old }
    ensures { IsSemaphorePass gate.now pass.new }
{
    pass.left() > 0 && gate.release(rt, pass, 1).is_ok()
}

// Eight threads sleep on a semaphore, and each is released and ends. Gives how many there were.
fn eight_sleep<R: Threads + Wait + Clock + Copy + Send + 'static>(
    rt: &R,
    alloc: Global,
) -> Result<usize, NoMemory> {
    let (gate, mut first) = Semaphore::new(alloc, 0, SLEEPERS, SLEEPERS + 1, 100)?;
    let gate = Arc::new(alloc, gate)?;
    let mut sleepers = Vec::with_capacity(alloc, SLEEPERS as usize)?;
    for started in 0..SLEEPERS {
        let pass = gate.split(&mut first, 1);
        let theirs = Arc::try_clone(&gate)?;
        if let Some(sleeper) = sleeper(rt, theirs, pass) {
            sleepers.push(sleeper)?;
        }
    }
    thread::sleep(rt, Duration::from_millis(1));
    for _ in 0..sleepers.len() {
        let _done = release_one(rt, &gate, &mut first);
    }
    let asleep = sleepers.len();
    for _ in 0..asleep {
        if let Some(sleeper) = sleepers.pop() {
            sleeper.join(rt);
        }
    }
    Ok(asleep)
}

// A second pass is split off, sees what the first has seen, and is taken in. Gives what is left.
fn split_and_join(alloc: Global) -> Result<u32, NoMemory> {
    let (gate, mut first) = Semaphore::new(alloc, 0, 2, 2, 10)?;
    let mut second = gate.split(&mut first, 3);
    gate.meet(&mut first, &mut second);
    gate.join(&mut first, second);
    Ok(first.left())
}

// What the five calls on a latch answer, in order.
type LatchRow = ((bool, u32), u32, u32, (bool, u32), u32);

fn latch_row<R: Wait>(rt: &R, alloc: Global) -> Result<LatchRow, NoMemory> {
    let (latch, mut pass) = Latch::new(alloc, 3, 1, 10)?;
    let shut = latch.try_wait(rt, &mut pass);
    let first = latch.count_down(rt, &mut pass, 1);
    let second = latch.count_down(rt, &mut pass, 2);
    let open = latch.try_wait(rt, &mut pass);
    let waited = latch.wait(rt, &mut pass);
    Ok((shut, first, second, open, waited))
}

// Part of a latch's share goes to a second pass and comes back. Gives the second pass's share, and the
// first one's at the end.
fn give_and_join(alloc: Global) -> Result<(u32, u32), NoMemory> {
    let (latch, mut first) = Latch::new(alloc, 3, 2, 10)?;
    let mut second = latch.split(&mut first, 1);
    latch.give(&mut first, &mut second, 2);
    let given = second.share();
    latch.meet(&mut first, &mut second);
    latch.join(&mut first, second);
    Ok((given, first.share()))
}

// A thread that arrives at the latch and waits.
fn arriver<R: Threads + Wait + Copy + Send + 'static>(
    rt: &R,
    latch: Arc<Latch, Global>,
    pass: LatchPass,
) -> Option<JoinHandle<(u32, u32)>>
    requires { IsLatchPass (arc_value latch) pass × (1 ≤ pass.left) × (1 ≤ pass.share) }
{
    let inner = *rt;
    thread::spawn(
        rt,
        move || -> (u32, u32)
            requires { IsLatchPass (arc_value latch) pass × (1 ≤ pass.left) × (1 ≤ pass.share) }
        {
            let mut mine = pass;
            latch.arrive_and_wait(&inner, &mut mine)
        },
    )
    .ok()
}

// Two threads arrive at a latch of two, and each waits for the other.
fn two_arrive<R: Threads + Wait + Copy + Send + 'static>(
    rt: &R,
    alloc: Global,
) -> Result<Option<((u32, u32), (u32, u32))>, NoMemory> {
    let (latch, mut first) = Latch::new(alloc, 2, 2, 10)?;
    let mut second = latch.split(&mut first, 1);
    latch.give(&mut first, &mut second, 1);
    let latch = Arc::new(alloc, latch)?;
    let theirs = Arc::try_clone(&latch)?;
    let Some(arriver) = arriver(rt, theirs, second) else {
        return Ok(None);
    };
    let mine = latch.arrive_and_wait(rt, &mut first);
    Ok(Some((mine, arriver.join(rt))))
}

#[test]
fn latch_opens_at_zero(rt: HostRuntime) -> Result<(), Fail> {
    let (shut, first, second, open, waited) = latch_row(&rt, rt.alloc())?;
    assert!(rt; shut == (false, 0));
    assert!(rt; first == 0);
    assert!(rt; second == 1);
    assert!(rt; open == (true, 2));
    assert!(rt; waited == 2);
    Ok(())
}

#[test]
fn passes_are_split_and_joined(rt: HostRuntime) -> Result<(), Fail> {
    assert!(rt; split_and_join(rt.alloc())? == 10);
    assert!(rt; give_and_join(rt.alloc())? == (2, 3));
    Ok(())
}

#[test]
fn two_threads_arrive(rt: HostRuntime) -> Result<(), Fail> {
    for _ in 0..100 {
        let Some((mine, theirs)) = two_arrive(&rt, rt.alloc())? else {
            assert!(rt; false);
            return Ok(());
        };
        assert!(rt; (mine.0 == 0 && theirs.0 == 1) || (mine.0 == 1 && theirs.0 == 0));
        assert!(rt; mine.1 == 2 && theirs.1 == 2);
    }
    Ok(())
}

#[test]
fn releases_acquires_and_refuses(rt: HostRuntime) -> Result<(), Fail> {
    let (over, released, acquired, taken, zero) = row(&rt, rt.alloc())?;
    assert!(rt; over == Err(Over { at: 0 }));
    assert!(rt; released == Ok(0));
    assert!(rt; acquired == 1);
    assert!(rt; taken == Taking::Taken(2));
    assert!(rt; zero == Taking::Zero(3));
    Ok(())
}

#[test]
fn eight_sleepers_wake(rt: HostRuntime) -> Result<(), Fail> {
    for _ in 0..100 {
        let acquired = eight_sleep(&rt, rt.alloc())?;
        assert!(rt; acquired == SLEEPERS as usize);
    }
    Ok(())
}
