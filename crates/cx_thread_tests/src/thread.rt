ghost use Rattle.std.specs.Prelude.{◌≡◌, ◌<◌, ◌+◌, ◌-◌, ◌^◌};

use cx_io::{Job, Listed, Real, Sure};
use cx_jthread::Thread;
use cx_names::{Errc, ThreadNo};
use std::sync::Wait;
use std::test::Fail;

const MAIN: ThreadNo = ThreadNo(0);

const FIRST: ThreadNo = ThreadNo(1);

/// Gives the next number, where there is one.
#[derive(Drop)]
struct Next(u64);

impl Job for Next {
    type Out = u64;

    ghost needs = { λ job. job.0 < 2 ^ 64 - 1 };

    ghost gives = { λ job out. out ≡ job.0 + 1 };

    ghost steps_of = { λ _. 1 };

    fn run<R: Wait>(self, _rt: &R) -> u64 {
        self.0 + 1
    }

    fn steps(_out: &u64) -> u64 {
        1
    }
}

#[test]
fn starts_and_joins_once(rt: HostRuntime) -> Result<(), Fail> {
    let mut sure = Sure::new(rt.alloc());
    let Ok(mut thread) = Thread::start(&rt, &mut sure, FIRST, Next(41)) else {
        panic!(rt; "Sure refused a start");
    };
    assert!(rt; thread.joinable());
    assert_eq!(rt; thread.number(), FIRST);
    assert_eq!(rt; thread.join(&rt, &mut sure, MAIN), Ok(42));
    assert!(rt; !thread.joinable());
    assert_eq!(rt;
        thread.join(&rt, &mut sure, MAIN),
        Err(Errc::InvalidArgument)
    );
    assert_eq!(rt;
        thread.join(&rt, &mut sure, FIRST),
        Err(Errc::InvalidArgument)
    );
    Ok(())
}

#[test]
fn a_thread_does_not_join_itself(rt: HostRuntime) -> Result<(), Fail> {
    let mut real = Real::new(rt.alloc());
    match Thread::start(&rt, &mut real, FIRST, Next(1)) {
        Ok(mut thread) => {
            let refused = thread.join(&rt, &mut real, FIRST);
            assert_eq!(rt; refused, Err(Errc::ResourceDeadlockWouldOccur));
            assert!(rt; thread.joinable());
            assert_eq!(rt; thread.join(&rt, &mut real, MAIN), Ok(2));
        }
        Err(back) => assert_eq!(rt; back.0, 1),
    }
    Ok(())
}

#[test]
fn a_refused_start_gives_the_job_back(rt: HostRuntime) -> Result<(), Fail> {
    let alloc = rt.alloc();
    let mut listed = Listed::new(alloc, vec![in alloc; 1]?);
    match Thread::start(&rt, &mut listed, FIRST, Next(5)) {
        Ok(_) => panic!(rt; "the first start is listed"),
        Err(back) => assert_eq!(rt; back.0, 5),
    }
    let Ok(mut thread) = Thread::start(&rt, &mut listed, FIRST, Next(6)) else {
        panic!(rt; "the second start is not listed");
    };
    assert_eq!(rt; thread.join(&rt, &mut listed, MAIN), Ok(7));
    Ok(())
}
