ghost use Rattle.std.specs.Prelude.{◌≡◌, ◌≤◌, ◌+◌, ◌*◌};

use cx_io::{Job, Listed, Real, Running, Spawner, Sure};
use std::sync::Wait;
use std::test::Fail;

/// Doubles any number, which takes as many steps as the result says.
#[derive(Drop)]
struct Doubling(u32);

impl Job for Doubling {
    type Out = u64;

    ghost gives = { λ job out. out ≡ 2 * job.0 };

    ghost steps_of = { λ out. out };

    fn run<R: Wait>(self, _rt: &R) -> u64 {
        2 * u64::from(self.0)
    }

    fn steps(out: &u64) -> u64 {
        *out
    }
}

/// Takes a part from a number, which takes as many steps as the result says.
#[derive(Drop)]
struct Taking {
    part: u64,
    from: u64,
}

impl Job for Taking {
    type Out = u64;

    ghost needs = { λ job. job.part ≤ job.from };

    ghost gives = { λ job out. out + job.part ≡ job.from };

    ghost steps_of = { λ out. out };

    fn run<R: Wait>(self, _rt: &R) -> u64 {
        self.from - self.part
    }

    fn steps(out: &u64) -> u64 {
        *out
    }
}

#[test]
fn sure_starts_and_joins(rt: HostRuntime) -> Result<(), Fail> {
    let mut sure = Sure::new(rt.alloc());
    let Ok(first) = sure.start(&rt, Taking { part: 2, from: 8 }) else {
        panic!(rt; "Sure refused a start");
    };
    let Ok(second) = sure.start(&rt, Taking { part: 7, from: 17 }) else {
        panic!(rt; "Sure refused a start");
    };
    assert_eq!(rt; sure.join(&rt, second), 10);
    assert_eq!(rt; sure.join(&rt, first), 6);
    Ok(())
}

#[test]
fn listed_refuses_the_second_of_three(rt: HostRuntime) -> Result<(), Fail> {
    let alloc = rt.alloc();
    let mut listed = Listed::new(alloc, vec![in alloc; 2]?);
    let mut running = Vec::new(alloc);
    for number in 1..4 {
        match listed.start(&rt, Doubling(number)) {
            Ok(job) => running.push(job)?,
            Err(back) => assert_eq!(rt; (back.0, number), (2, 2)),
        }
    }
    let mut outcomes = Vec::new(alloc);
    for job in running {
        outcomes.push(listed.join(&rt, job))?;
    }
    assert_eq!(rt; outcomes.as_slice(), [2, 6].as_slice());
    Ok(())
}

#[test]
fn real_starts_and_joins(rt: HostRuntime) -> Result<(), Fail> {
    let mut real = Real::new(rt.alloc());
    match real.start(&rt, Doubling(7)) {
        Ok(job) => assert_eq!(rt; real.join(&rt, job), 14),
        Err(back) => assert_eq!(rt; back.0, 7),
    }
    Ok(())
}

#[test]
fn a_kept_job_runs_when_it_is_joined(rt: HostRuntime) -> Result<(), Fail> {
    let mut sure = Sure::new(rt.alloc());
    let kept = Running::Here(Taking { part: 1, from: 9 });
    assert_eq!(rt; sure.join(&rt, kept), 8);
    Ok(())
}
