ghost use Rattle.std.specs.Prelude.{◌≡◌, ◌≤◌, ◌+◌, ℕ};
ghost use Rattle.std.specs.Arc.{arc_value};
ghost use Rattle.cx_sync.specs.Onces.{IsOncePass};

use cx_names::NoMemory;
use cx_sync::{Once3, OnceFlag, OncePass};
use std::alloc::Global;
use std::sync::{Arc, Wait};
use std::test::Fail;
use std::thread;
use std::thread::{JoinHandle, Threads};

// A function that throws, one that returns, and one that isn't called.
fn row<R: Wait>(rt: &R, alloc: Global) -> Result<(Once3, Once3, Once3), NoMemory> {
    let (flag, mut pass) = OnceFlag::new(alloc, 1, 10)?;
    let threw = flag.call_once(rt, &mut pass, || Err(7));
    let returned = flag.call_once(rt, &mut pass, || Ok(()));
    let passive = flag.call_once(rt, &mut pass, || Ok(()));
    Ok((threw, returned, passive))
}

// A thread that calls once.
fn caller<R: Threads + Wait + Copy + Send + 'static>(
    rt: &R,
    flag: Arc<OnceFlag, Global>,
    pass: OncePass,
) -> Option<JoinHandle<Once3>>
    requires { IsOncePass (arc_value flag) pass × (2 ≤ pass.left) }
{
    let inner = *rt;
    thread::spawn(
        rt,
        move || -> Once3
            requires { IsOncePass (arc_value flag) pass × (2 ≤ pass.left) }
        {
            let mut mine = pass;
            flag.call_once(&inner, &mut mine, || Ok(()))
        },
    )
    .ok()
}

// Two threads call once, at the same time.
fn two_call<R: Threads + Wait + Copy + Send + 'static>(
    rt: &R,
    alloc: Global,
) -> Result<Option<(Once3, Once3)>, NoMemory> {
    let (flag, mut first) = OnceFlag::new(alloc, 2, 10)?;
    let second = flag.split(&mut first, 2);
    let flag = Arc::new(alloc, flag)?;
    let theirs = Arc::try_clone(&flag)?;
    let Some(caller) = caller(rt, theirs, second) else {
        return Ok(None);
    };
    let mine = flag.call_once(rt, &mut first, || Ok(()));
    Ok(Some((mine, caller.join(rt))))
}

#[test]
fn throws_returns_and_is_passive(rt: HostRuntime) -> Result<(), Fail> {
    let (threw, returned, passive) = row(&rt, rt.alloc())?;
    assert!(rt; threw == Once3::Threw(7, 0, 1));
    assert!(rt; returned == Once3::Returned(2, 3));
    assert!(rt; passive == Once3::Passive(4));
    Ok(())
}

#[test]
fn one_of_two_is_passive(rt: HostRuntime) -> Result<(), Fail> {
    let (returned, passive) = (Once3::Returned(0, 1), Once3::Passive(2));
    for _ in 0..100 {
        let both = two_call(&rt, rt.alloc())?;
        assert!(rt; both == Some((returned, passive)) || both == Some((passive, returned)));
    }
    Ok(())
}
