ghost use Rattle.std.specs.Prelude.{◌≡◌, ◌<◌, ◌≤◌, true};
ghost use Rattle.std.specs.Arc.{arc_value};
ghost use Rattle.cx_mutex.specs.Mutexes.{IsMutexPass, IsBare};
ghost use Rattle.cx_condvar.specs.Condvars.{IsCondPass, IsOut};
ghost use Rattle.cx_condvar_tests.specs.MayWait.{MayHand};

use cx_condvar::{CondPass, CondvarAny, Log, Predicate8, Waited};
use cx_mutex::{Mutex, MutexPass};
use cx_names::{NoMemory, Turns};
use cx_scene::Relation;
use std::alloc::Global;
use std::sync::{Arc, Wait};
use std::test::Fail;
use std::thread;
use std::thread::{JoinHandle, Threads};

const ROUNDS: u32 = 100;

const CHANGES: u32 = 200_000;

// Whether the passes have changes enough for one round, whatever happens in it.
fn have_enough(key: &MutexPass, mine: &CondPass, other: &CondPass) -> bool
    ensures { result ≡ true → (32771 ≤ key.now.left) × (32768 ≤ mine.now.left) × (1 ≤ other.now.left) }
{
    key.left() >= 32_771 && mine.left() >= 32_768 && other.left() >= 1
}

// Waits until the number is this one, puts the next one in its place, and notifies the other thread. Says
// whether it did.
fn hand_over<R: Wait>(
    rt: &R,
    alloc: Global,
    mutex: &Mutex,
    key: &mut MutexPass,
    mine: &CondvarAny,
    mine_pass: &mut CondPass,
    other: &CondvarAny,
    other_pass: &mut CondPass,
    wanted: i64,
    next: i64,
    turns: &mut Turns,
) -> bool
    requires key { IsMutexPass mutex.now key.old × IsBare mutex.now key.old }
    requires mine { IsCondPass mine.now mine_pass.old × IsOut mine.now mine_pass.old }
    requires other { IsCondPass other.now other_pass.old }
    requires numbers { mutex.now.numbers ≡ 1 }
    requires turns { turns.old.used ≤ 16384 }
    requires left { (32771 ≤ key.old.left) × (32768 ≤ mine_pass.old.left) × (1 ≤ other_pass.old.left) }
    ensures key { IsMutexPass mutex.now key.new × IsBare mutex.now key.new }
    ensures mine { IsCondPass mine.now mine_pass.new × IsOut mine.now mine_pass.new }
    ensures other { IsCondPass other.now other_pass.new }
    ensures turns { turns.new.used ≤ 16384 }
{
    let (hold, _) = mutex.lock(rt, key);
    let test = Predicate8 {
        number: 0,
        relation: Relation::Equal,
        value: wanted,
    };
    let mut log = Log {
        acts: Vec::new(alloc),
    };
    match mine.wait_until_true(rt, mine_pass, mutex, key, hold, &test, turns, &mut log) {
        Ok((waited, hold)) => {
            mutex.set(rt, key, &hold, 0, next);
            other.notify_one(rt, other_pass);
            mutex.unlock(rt, key, hold);
            waited == Waited::True
        }
        Err((_, hold)) => {
            mutex.unlock(rt, key, hold);
            false
        }
    }
}

// Does so again and again, and gives how often.
fn play<R: Wait>(
    rt: &R,
    alloc: Global,
    mutex: &Mutex,
    key: &mut MutexPass,
    mine: &CondvarAny,
    mine_pass: &mut CondPass,
    other: &CondvarAny,
    other_pass: &mut CondPass,
    wanted: i64,
    next: i64,
) -> u32
    requires key { IsMutexPass mutex.now key.old × IsBare mutex.now key.old }
    requires mine { IsCondPass mine.now mine_pass.old × IsOut mine.now mine_pass.old }
    requires other { IsCondPass other.now other_pass.old }
    requires numbers { mutex.now.numbers ≡ 1 }
{
    let mut turns = Turns { used: 0 };
    for i in 0..ROUNDS {
        if !have_enough(key, mine_pass, other_pass) {
            return i;
        }
        let handed = hand_over(
            rt, alloc, mutex, key, mine, mine_pass, other, other_pass, wanted, next, &mut turns,
        );
        if !handed {
            return i;
        }
    }
    ROUNDS
}

// The mutex with the number, the condition that a thread waits for, and the one that it notifies, with its
// passes.
#[derive(Drop)]
struct Side {
    mutex: Arc<Mutex, Global>,
    key: MutexPass,
    mine: Arc<CondvarAny, Global>,
    mine_pass: CondPass,
    other: Arc<CondvarAny, Global>,
    other_pass: CondPass,
}

// A thread that waits for 1 and puts 0.
fn taker<R: Threads + Wait + Copy + Send + 'static>(
    rt: &R,
    alloc: Global,
    side: Side,
) -> Option<JoinHandle<u32>>
    requires { MayHand (arc_value side.mutex) side.key (arc_value side.mine) side.mine_pass (arc_value side.other) side.other_pass }
{
    let inner = *rt;
    thread::spawn(
        rt,
        move || -> u32
            requires { MayHand (arc_value side.mutex) side.key (arc_value side.mine) side.mine_pass (arc_value side.other) side.other_pass }
        {
            let Side {
                mutex,
                mut key,
                mine,
                mut mine_pass,
                other,
                mut other_pass,
            } = side;
            play(
                &inner,
                alloc,
                &mutex,
                &mut key,
                &mine,
                &mut mine_pass,
                &other,
                &mut other_pass,
                1,
                0,
            )
        },
    )
    .ok()
}

// Two threads hand a number over. Gives how often each did.
fn two_hand_over<R: Threads + Wait + Copy + Send + 'static>(
    rt: &R,
    alloc: Global,
) -> Result<(u32, u32), NoMemory> {
    let (mutex, mut key) = Mutex::new(alloc, 1, 2, CHANGES)?;
    let (full, mut full_pass) = CondvarAny::new(alloc, 2, CHANGES)?;
    let (empty, mut empty_pass) = CondvarAny::new(alloc, 2, CHANGES)?;
    let its_key = mutex.split(&mut key, CHANGES / 2);
    let its_full = full.split(&mut full_pass, CHANGES / 2);
    let its_empty = empty.split(&mut empty_pass, CHANGES / 2);
    let mutex = Arc::new(alloc, mutex)?;
    let full = Arc::new(alloc, full)?;
    let empty = Arc::new(alloc, empty)?;
    let side = Side {
        mutex: Arc::try_clone(&mutex)?,
        key: its_key,
        mine: Arc::try_clone(&full)?,
        mine_pass: its_full,
        other: Arc::try_clone(&empty)?,
        other_pass: its_empty,
    };
    let taker = taker(rt, alloc, side);
    let put = play(
        rt,
        alloc,
        &mutex,
        &mut key,
        &empty,
        &mut empty_pass,
        &full,
        &mut full_pass,
        0,
        1,
    );
    match taker {
        Some(taker) => Ok((put, taker.join(rt))),
        None => Ok((put, 0)),
    }
}

#[test]
fn two_threads_hand_a_number_over(rt: HostRuntime) -> Result<(), Fail> {
    assert!(rt; two_hand_over(&rt, rt.alloc())? == (ROUNDS, ROUNDS));
    Ok(())
}
