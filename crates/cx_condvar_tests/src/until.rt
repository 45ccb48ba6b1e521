ghost use Rattle.std.specs.Prelude.{◌≡◌, ◌<◌, ◌≤◌, IfOk};
ghost use Rattle.cx_mutex.specs.Mutexes.{IsMutexPass, IsHeldBy};
ghost use Rattle.cx_condvar.specs.Condvars.{IsCondPass, IsOut};

use cx_condvar::{CondPass, CondvarAny, Log, Logged, Part, Predicate8, Waited};
use cx_machine::Op;
use cx_mutex::{Hold, Mutex, MutexPass};
use cx_names::{NoMemory, Reply, TURNS, Turns};
use cx_scene::Relation;
use std::alloc::Global;
use std::sync::Wait;
use std::test::Fail;

// A condition, and a held mutex that guards a number, with passes that can wait as often as there are turns.
fn fresh<R: Wait>(
    rt: &R,
    alloc: Global,
) -> Result<(CondvarAny, CondPass, Mutex, MutexPass, Hold), NoMemory>
    ensures condition { IfOk result (λ t. IsCondPass t.0 t.1 × IsOut t.0 t.1 × (32768 ≤ t.1.left)) }
    ensures mutex { IfOk result (λ t. IsMutexPass t.2 t.3 × IsHeldBy t.2 t.3 t.4 × (32768 ≤ t.3.left) × (t.2.numbers ≡ 1)) }
{
    let (condition, pass) = CondvarAny::new(alloc, 1, 40_000)?;
    let (mutex, mut key) = Mutex::new(alloc, 1, 1, 40_000)?;
    let (hold, _) = mutex.lock(rt, &mut key);
    Ok((condition, pass, mutex, key, hold))
}

// What a wait for this predicate came to where so many turns were taken, how many are taken then, how many
// changes the condition has seen, and what the log has.
fn waits_for<R: Wait>(
    rt: &R,
    alloc: Global,
    relation: Relation,
    used: u32,
) -> Result<(Waited, u32, u32, Log), NoMemory>
    requires { used ≤ 16384 }
{
    let (condition, mut pass, mutex, mut key, hold) = fresh(rt, alloc)?;
    let test = Predicate8 {
        number: 0,
        relation,
        value: 0,
    };
    let mut turns = Turns { used };
    let mut log = Log {
        acts: Vec::new(alloc),
    };
    match condition.wait_until_true(
        rt, &mut pass, &mutex, &mut key, hold, &test, &mut turns, &mut log,
    ) {
        Ok((waited, _)) => Ok((waited, turns.used, pass.len(), log)),
        Err((want, _)) => Err(want),
    }
}

// Whether the log has one act, a look at the number 0 after one change.
fn has_one_look(log: &Log) -> bool {
    match log.acts.as_slice() {
        [Logged::Look(Part::Mutex, look)] => {
            look.op == Op::Get && look.a == 0 && look.reply == Reply::Number(0) && look.at == 1
        }
        _ => false,
    }
}

#[test]
fn a_predicate_that_holds_is_not_waited_for(rt: HostRuntime) -> Result<(), Fail> {
    let (waited, used, seen, log) = waits_for(&rt, rt.alloc(), Relation::AtMost, 7)?;
    assert!(rt; waited == Waited::True && used == 7 && seen == 0);
    assert!(rt; has_one_look(&log));
    Ok(())
}

#[test]
fn no_turn_is_left_to_wait_with(rt: HostRuntime) -> Result<(), Fail> {
    let (waited, used, seen, log) = waits_for(&rt, rt.alloc(), Relation::Greater, TURNS)?;
    assert!(rt; waited == Waited::Spent && used == TURNS && seen == 0);
    assert!(rt; has_one_look(&log));
    Ok(())
}
