//! Hand-overs of two threads by conditions, notifications that pick nobody, and numbers under a held lock.
ghost use Rattle.std.specs.Prelude.{◌≡◌, ◌+◌, ◌<◌, ◌≤◌, IfOk, IfErr};
ghost use Rattle.std.specs.Arc.{arc_value};
ghost use Rattle.cx_mutex.specs.Mutexes.{IsMutexPass, IsBare, IsHeldBy};
ghost use Rattle.cx_condvar.specs.Condvars.{IsCondPass, IsOut};
ghost use Rattle.cx_loops.specs.HandOvers.{MayHandOver};

use crate::taken::{Taken, Want, begin, made_since};
use cx_condvar::{CondPass, CondvarAny};
use cx_mutex::{Hold, Mutex, MutexPass};
use std::alloc::Global;
use std::sync::{Arc, Wait};
use std::thread;
use std::thread::{JoinHandle, Threads};
use std::time::Clock;

/// How often two threads hand over at most.
pub const MOST_HAND_OVERS: u32 = 10_000_000;

// How many changes there may be of one object in all.
const CHANGES: u32 = 260_000_000;

/// Notifies one of those that wait, `n` times.
pub fn notify_often<R: Wait>(rt: &R, condition: &CondvarAny, pass: &mut CondPass, n: u32)
    requires pass { IsCondPass condition.now pass.old }
    requires left { n ≤ pass.old.left }
    ensures idle { IsCondPass condition.now pass.new }
    ensures made { pass.new.left + n ≡ pass.old.left }
{
    for done in 0..n {
        condition.notify_one(rt, pass);
    }
}

/// One thread notifies `n` times, while nobody waits.
pub fn nobody<R: Wait + Clock>(rt: &R, alloc: Global, n: u32) -> Result<Taken, Want>
    requires { n ≤ 100000000 }
{
    let (condition, mut pass) = CondvarAny::new(alloc, 1, n)?;
    let start = begin(rt)?;
    notify_often(rt, &condition, &mut pass, n);
    made_since(rt, start, n)
}

/// Gets the number of a mutex that is held, `n` times.
pub fn get_often<R: Wait>(rt: &R, mutex: &Mutex, key: &mut MutexPass, hold: &Hold, n: u32)
    requires key { IsMutexPass mutex.now key.old }
    requires held { IsHeldBy mutex.now key.old hold.now }
    requires number { 0 < mutex.now.numbers }
    ensures idle { IsMutexPass mutex.now key.new }
    ensures held { IsHeldBy mutex.now key.new hold.now }
    ensures left { key.new.left ≡ key.old.left }
{
    for done in 0..n {
        mutex.get(rt, key, hold, 0);
    }
}

/// Sets the number of a mutex that is held, `n` times.
pub fn set_often<R: Wait>(rt: &R, mutex: &Mutex, key: &mut MutexPass, hold: &Hold, n: u32)
    requires key { IsMutexPass mutex.now key.old }
    requires held { IsHeldBy mutex.now key.old hold.now }
    requires number { 0 < mutex.now.numbers }
    requires left { n ≤ key.old.left }
    ensures idle { IsMutexPass mutex.now key.new }
    ensures held { IsHeldBy mutex.now key.new hold.now }
    ensures made { key.new.left + n ≡ key.old.left }
{
    for done in 0..n {
        mutex.set(rt, key, hold, 0, done as i64);
    }
}

/// One thread holds a mutex, and gets its number `n` times.
pub fn gets<R: Wait + Clock>(rt: &R, alloc: Global, n: u32) -> Result<Taken, Want> {
    let (mutex, mut key) = Mutex::new(alloc, 1, 1, 1)?;
    let (hold, _) = mutex.lock(rt, &mut key);
    let start = begin(rt)?;
    get_often(rt, &mutex, &mut key, &hold, n);
    made_since(rt, start, n)
}

/// One thread holds a mutex, and sets its number `n` times.
pub fn sets<R: Wait + Clock>(rt: &R, alloc: Global, n: u32) -> Result<Taken, Want>
    requires { n ≤ 100000000 }
{
    let (mutex, mut key) = Mutex::new(alloc, 1, 1, n + 1)?;
    let (hold, _) = mutex.lock(rt, &mut key);
    let start = begin(rt)?;
    set_often(rt, &mutex, &mut key, &hold, n);
    made_since(rt, start, n)
}

// Waits until the number is this one. Err where no change is left to wait with.
fn await_number<R: Wait>(
    rt: &R,
    mutex: &Mutex,
    key: &mut MutexPass,
    mine: &CondvarAny,
    mine_pass: &mut CondPass,
    held: Hold,
    wanted: i64,
) -> Result<Hold, Hold>
    requires key { IsMutexPass mutex.now key.old }
    requires held { IsHeldBy mutex.now key.old held }
    requires number { 0 < mutex.now.numbers }
    requires mine { IsCondPass mine.now mine_pass.old × IsOut mine.now mine_pass.old }
    requires left { 2 ≤ key.old.left }
    ensures key { IsMutexPass mutex.now key.new }
    ensures mine { IsCondPass mine.now mine_pass.new × IsOut mine.now mine_pass.new }
    ensures held { IfOk result (λ h. IsHeldBy mutex.now key.new h) }
    ensures still_held { IfErr result (λ h. IsHeldBy mutex.now key.new h) }
    ensures left { 2 ≤ key.new.left }
{
    let mut hold = held;
    for _ in rt.forever() {
        let (number, _) = mutex.get(rt, key, &hold, 0);
        if number == wanted {
            return Ok(hold);
        }
        if key.left() < 4 || mine_pass.left() < 2 {
            return Err(hold);
        }
        let (again, _) = mine.wait(rt, mine_pass, mutex, key, hold);
        hold = again;
    }
    Err(hold)
}

// Waits until the number is this one, puts the next in its place, and notifies the other thread. Says whether
// it did.
fn hand_over<R: Wait>(
    rt: &R,
    mutex: &Mutex,
    key: &mut MutexPass,
    mine: &CondvarAny,
    mine_pass: &mut CondPass,
    other: &CondvarAny,
    other_pass: &mut CondPass,
    wanted: i64,
    next: i64,
) -> bool
    requires key { IsMutexPass mutex.now key.old × IsBare mutex.now key.old }
    requires number { 0 < mutex.now.numbers }
    requires mine { IsCondPass mine.now mine_pass.old × IsOut mine.now mine_pass.old }
    requires other { IsCondPass other.now other_pass.old }
    ensures key { IsMutexPass mutex.now key.new × IsBare mutex.now key.new }
    ensures mine { IsCondPass mine.now mine_pass.new × IsOut mine.now mine_pass.new }
    ensures other { IsCondPass other.now other_pass.new }
{
    if key.left() < 3 || other_pass.left() == 0 {
        return false;
    }
    let (hold, _) = mutex.lock(rt, key);
    match await_number(rt, mutex, key, mine, mine_pass, hold, wanted) {
        Ok(hold) => {
            mutex.set(rt, key, &hold, 0, next);
            other.notify_one(rt, other_pass);
            mutex.unlock(rt, key, hold);
            true
        }
        Err(hold) => {
            mutex.unlock(rt, key, hold);
            false
        }
    }
}

// Does so `n` times. Returns how often: fewer than `n` times only where no change was left.
fn hand_over_often<R: Wait>(
    rt: &R,
    mutex: &Mutex,
    key: &mut MutexPass,
    mine: &CondvarAny,
    mine_pass: &mut CondPass,
    other: &CondvarAny,
    other_pass: &mut CondPass,
    wanted: i64,
    next: i64,
    n: u32,
) -> u32
    requires key { IsMutexPass mutex.now key.old × IsBare mutex.now key.old }
    requires number { 0 < mutex.now.numbers }
    requires mine { IsCondPass mine.now mine_pass.old × IsOut mine.now mine_pass.old }
    requires other { IsCondPass other.now other_pass.old }
    ensures within { result ≤ n }
{
    for i in 0..n {
        if !hand_over(
            rt, mutex, key, mine, mine_pass, other, other_pass, wanted, next,
        ) {
            return i;
        }
    }
    n
}

// The mutex with the number, the condition that a thread waits for, and the one that it notifies, with its
// passes.
#[derive(Drop)]
struct Side {
    mutex: Arc<Mutex, Global>,
    key: MutexPass,
    mine: Arc<CondvarAny, Global>,
    mine_pass: CondPass,
    other: Arc<CondvarAny, Global>,
    other_pass: CondPass,
}

// A thread that waits for 1 and puts 0, so often.
fn second<R: Threads + Wait + Copy + Send + 'static>(
    rt: &R,
    side: Side,
    n: u32,
) -> Result<JoinHandle<u32>, Want>
    requires { MayHandOver (arc_value side.mutex) side.key (arc_value side.mine) side.mine_pass (arc_value side.other) side.other_pass }
{
    let inner = *rt;
    thread::spawn(
        rt,
        move || -> u32
            requires { MayHandOver (arc_value side.mutex) side.key (arc_value side.mine) side.mine_pass (arc_value side.other) side.other_pass }
        {
            let Side {
                mutex,
                mut key,
                mine,
                mut mine_pass,
                other,
                mut other_pass,
            } = side;
            hand_over_often(
                &inner,
                &mutex,
                &mut key,
                &mine,
                &mut mine_pass,
                &other,
                &mut other_pass,
                1,
                0,
                n,
            )
        },
    )
    .map_err(|_| Want)
}

/// Two threads hand a number over by two conditions, `n` times there and back.
pub fn ping_pong<R: Threads + Wait + Clock + Copy + Send + 'static>(
    rt: &R,
    alloc: Global,
    n: u32,
) -> Result<Taken, Want> {
    let (mutex, mut key) = Mutex::new(alloc, 1, 2, CHANGES)?;
    let (full, mut full_pass) = CondvarAny::new(alloc, 2, CHANGES)?;
    let (empty, mut empty_pass) = CondvarAny::new(alloc, 2, CHANGES)?;
    let its_key = mutex.split(&mut key, CHANGES / 2);
    let its_full = full.split(&mut full_pass, CHANGES / 2);
    let its_empty = empty.split(&mut empty_pass, CHANGES / 2);
    let mutex = Arc::new(alloc, mutex)?;
    let full = Arc::new(alloc, full)?;
    let empty = Arc::new(alloc, empty)?;
    let side = Side {
        mutex: Arc::try_clone(&mutex)?,
        key: its_key,
        mine: Arc::try_clone(&full)?,
        mine_pass: its_full,
        other: Arc::try_clone(&empty)?,
        other_pass: its_empty,
    };
    let second = second(rt, side, n)?;
    let start = begin(rt)?;
    let made = hand_over_often(
        rt,
        &mutex,
        &mut key,
        &empty,
        &mut empty_pass,
        &full,
        &mut full_pass,
        0,
        1,
        n,
    );
    second.join(rt);
    made_since(rt, start, made)
}
