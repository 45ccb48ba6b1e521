ghost use Rattle.std.specs.Prelude.{◌≡◌, ◌≤◌, ◌<◌, ◌+◌, ℕ};
ghost use Rattle.std.specs.Arc.{arc_value};
ghost use Rattle.cx_machine.specs.Barrier as machine;
ghost use Rattle.cx_turn.specs.declared.view.View.{View};
ghost use Rattle.cx_barrier.specs.Barriers.{IsBarrierPass, IsBarrierPassWith, barrier_seats};

use cx_barrier::{Arrived, Barrier, BarrierPass, Completion, OverExpected};
use cx_names::{NoMemory, ThreadNo};
use std::alloc::Global;
use std::sync::{Arc, Wait};
use std::test::Fail;
use std::thread;
use std::thread::{JoinHandle, Threads};

const THREADS: u32 = 4;

const PHASES: u32 = 100;

// Counts how often it was called.
#[derive(Drop)]
struct Tally {
    count: u64,
}

impl Completion for Tally {
    ghost runs = { λ t. t.count };

    ghost since = { λ _ _. Unit {0} };

    fn complete<R: Wait>(&mut self, _rt: &R, _by: ThreadNo) {
        self.count = self.count.saturating_add(1);
    }

    ghost since_itself = { λ _. tt };

    ghost since_all = { λ _ _ _ _ _. tt };
}

// Arrives three times at once, if the pass may.
fn arrive_thrice<R: Wait>(
    rt: &R,
    barrier: &Barrier,
    pass: &mut BarrierPass,
    tally: &mut Tally,
) -> Option<OverExpected>
    requires { IsBarrierPass barrier.now pass.old }
    ensures { IsBarrierPass barrier.now pass.new }
{
    if pass.left() < 2 {
        return None;
    }
    match barrier.arrive(rt, pass, 3, tally) {
        Ok(_) => None,
        Err(over) => Some(over),
    }
}

// What an arrival of two, a refused one and the wait for the first answer, with the phase of the pass and
// how often the completion was called.
type Row = (Arrived, Option<OverExpected>, u32, u32, u64);

fn row<R: Wait>(rt: &R, alloc: Global) -> Result<Option<Row>, NoMemory> {
    let (barrier, mut pass) = Barrier::new(alloc, 2, 1, 10)?;
    let mut tally = Tally { count: 0 };
    let Ok((arrival, arrived)) = barrier.arrive(rt, &mut pass, 2, &mut tally) else {
        return Ok(None);
    };
    let phase = pass.phase();
    let over = arrive_thrice(rt, &barrier, &mut pass, &mut tally);
    let waited = barrier.wait(rt, &mut pass, arrival);
    Ok(Some((arrived, over, waited, phase, tally.count)))
}

// Arrives and waits, if the pass may. Gives the stamp.
fn one_phase<R: Wait>(
    rt: &R,
    barrier: &Barrier,
    pass: &mut BarrierPass,
    tally: &mut Tally,
) -> Option<u32>
    requires { IsBarrierPass barrier.now pass.old }
    ensures { IsBarrierPass barrier.now pass.new }
{
    if pass.left() < 2 {
        return None;
    }
    match barrier.arrive_and_wait(rt, pass, tally) {
        Ok((_, stamp)) => Some(stamp),
        Err(_) => None,
    }
}

// What leaving a barrier of two answers, with the stamps of two phases that then expect one arrival each.
type Drops = (Option<Arrived>, Option<u32>, Option<u32>, u64);

fn drops<R: Wait>(rt: &R, alloc: Global) -> Result<Drops, NoMemory> {
    let (barrier, mut pass) = Barrier::new(alloc, 2, 1, 10)?;
    let mut tally = Tally { count: 0 };
    let dropped = barrier.arrive_and_drop(rt, &mut pass, &mut tally).ok();
    let first = one_phase(rt, &barrier, &mut pass, &mut tally);
    let second = one_phase(rt, &barrier, &mut pass, &mut tally);
    Ok((dropped, first, second, tally.count))
}

// Arrives and waits in all phases. Gives how many the pass completed.
fn all_phases<R: Wait>(rt: &R, barrier: &Barrier, pass: &mut BarrierPass) -> u64
    requires { IsBarrierPass barrier.now pass.old }
    ensures { IsBarrierPass barrier.now pass.new }
{
    let mut tally = Tally { count: 0 };
    for _ in 0..PHASES {
        let _stamp = one_phase(rt, barrier, pass, &mut tally);
    }
    tally.count
}

// A thread that does so.
fn phaser<R: Threads + Wait + Copy + Send + 'static>(
    rt: &R,
    barrier: Arc<Barrier, Global>,
    pass: BarrierPass,
) -> Option<JoinHandle<u64>>
    requires { IsBarrierPass (arc_value barrier) pass }
{
    let inner = *rt;
    thread::spawn(
        rt,
        move || -> u64
            requires { IsBarrierPass (arc_value barrier) pass }
        {
            let mut mine = pass;
            all_phases(&inner, &barrier, &mut mine)
        },
    )
    .ok()
}

// Four threads go through all phases. Gives how many completions they made together.
fn four_meet<R: Threads + Wait + Copy + Send + 'static>(
    rt: &R,
    alloc: Global,
) -> Result<Option<u64>, NoMemory> {
    let (barrier, mut first) = Barrier::new(alloc, THREADS, THREADS, 1000)?;
    let barrier = Arc::new(alloc, barrier)?;
    let mut phasers = Vec::with_capacity(alloc, THREADS as usize)?;
    for started in 1..THREADS {
        let pass = barrier.split(&mut first, 2 * PHASES);
        let theirs = Arc::try_clone(&barrier)?;
        let Some(phaser) = phaser(rt, theirs, pass) else {
            return Ok(None);
        };
        phasers.push(phaser)?;
    }
    let mut completions = all_phases(rt, &barrier, &mut first);
    for _ in 1..THREADS {
        if let Some(phaser) = phasers.pop() {
            completions = completions.saturating_add(phaser.join(rt));
        }
    }
    Ok(Some(completions))
}

#[test]
fn arrives_waits_and_refuses(rt: HostRuntime) -> Result<(), Fail> {
    let arrived = Arrived {
        at: 0,
        completed: Some(1),
    };
    let over = Some(OverExpected { at: 2 });
    assert!(rt; row(&rt, rt.alloc())? == Some((arrived, over, 2, 0, 1)));
    Ok(())
}

#[test]
fn a_phase_expects_fewer_after_a_drop(rt: HostRuntime) -> Result<(), Fail> {
    let dropped = Arrived {
        at: 0,
        completed: None,
    };
    assert!(rt; drops(&rt, rt.alloc())? == (Some(dropped), Some(3), Some(5), 2));
    Ok(())
}

#[test]
fn four_threads_meet(rt: HostRuntime) -> Result<(), Fail> {
    for _ in 0..10 {
        assert!(rt; four_meet(&rt, rt.alloc())? == Some(PHASES as u64));
    }
    Ok(())
}
