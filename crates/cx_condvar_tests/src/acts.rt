ghost use Rattle.std.specs.Prelude.{◌≡◌, ◌≤◌, IfOk};
ghost use Rattle.cx_condvar.specs.Condvars.{IsCondPass, IsOut};

use cx_condvar::{CondPass, CondvarAny};
use cx_names::{NoMemory, ThreadNo};
use std::alloc::Global;
use std::sync::Wait;
use std::test::Fail;

// A condition with two passes of four changes each.
fn fresh(alloc: Global) -> Result<(CondvarAny, CondPass, CondPass), NoMemory>
    ensures first { IfOk result (λ t. IsCondPass t.0 t.1 × IsOut t.0 t.1 × (4 ≤ t.1.left)) }
    ensures second { IfOk result (λ t. IsCondPass t.0 t.2 × IsOut t.0 t.2 × (4 ≤ t.2.left)) }
{
    let (condition, mut first) = CondvarAny::new(alloc, 2, 8)?;
    let second = condition.split(&mut first, 4);
    Ok((condition, first, second))
}

// One enters, the other notifies, and the first goes on.
fn goes_on<R: Wait>(rt: &R, alloc: Global) -> Result<(u32, Option<ThreadNo>, u32), NoMemory> {
    let (condition, mut first, mut second) = fresh(alloc)?;
    let (entered, entry) = condition.enter(rt, &mut first);
    let (picked, _) = condition.notify_one(rt, &mut second);
    let unblocked = condition.unblock(rt, &mut first, entered);
    Ok((entry, picked, unblocked))
}

// Both enter, and one of them is notified, by itself.
fn first_is_picked<R: Wait>(rt: &R, alloc: Global) -> Result<Option<ThreadNo>, NoMemory> {
    let (condition, mut first, mut second) = fresh(alloc)?;
    let (_second_entered, _) = condition.enter(rt, &mut second);
    let (_first_entered, _) = condition.enter(rt, &mut first);
    let (picked, _) = condition.notify_one(rt, &mut first);
    Ok(picked)
}

// One enters and withdraws, and the other notifies nobody.
fn withdraws<R: Wait>(
    rt: &R,
    alloc: Global,
) -> Result<(Option<u32>, Option<ThreadNo>, u32), NoMemory> {
    let (condition, mut first, mut second) = fresh(alloc)?;
    let (entered, _) = condition.enter(rt, &mut first);
    let withdrawn = condition.withdraw(rt, &mut first, entered).ok();
    let (picked, at) = condition.notify_one(rt, &mut second);
    Ok((withdrawn, picked, at))
}

// Both enter, one of them notifies all, and the other can't withdraw, but goes on.
fn all_go_on<R: Wait>(rt: &R, alloc: Global) -> Result<(u32, u32, Option<u32>), NoMemory> {
    let (condition, mut first, mut second) = fresh(alloc)?;
    let (entered, _) = condition.enter(rt, &mut first);
    let (_second_entered, _) = condition.enter(rt, &mut second);
    let (count, at) = condition.notify_all(rt, &mut second);
    match condition.withdraw(rt, &mut first, entered) {
        Ok(_) => Ok((count, at, None)),
        Err(entered) => {
            let unblocked = condition.unblock(rt, &mut first, entered);
            Ok((count, at, Some(unblocked)))
        }
    }
}

// One enters, the other sees it, and is taken in. Gives how much it saw, and what is left.
fn joins<R: Wait>(rt: &R, alloc: Global) -> Result<(u32, u32), NoMemory> {
    let (condition, mut first, mut second) = fresh(alloc)?;
    let (_entered, _) = condition.enter(rt, &mut first);
    condition.meet(&mut first, &mut second);
    let seen = second.len();
    condition.join(&mut first, second);
    Ok((seen, first.left()))
}

#[test]
fn who_is_notified_goes_on(rt: HostRuntime) -> Result<(), Fail> {
    assert!(rt; goes_on(&rt, rt.alloc())? == (0, Some(ThreadNo(0)), 2));
    assert!(rt; first_is_picked(&rt, rt.alloc())? == Some(ThreadNo(1)));
    assert!(rt; all_go_on(&rt, rt.alloc())? == (2, 2, Some(3)));
    Ok(())
}

#[test]
fn who_withdraws_is_not_notified(rt: HostRuntime) -> Result<(), Fail> {
    assert!(rt; withdraws(&rt, rt.alloc())? == (Some(1), None, 2));
    Ok(())
}

#[test]
fn passes_meet(rt: HostRuntime) -> Result<(), Fail> {
    assert!(rt; joins(&rt, rt.alloc())? == (1, 7));
    Ok(())
}
