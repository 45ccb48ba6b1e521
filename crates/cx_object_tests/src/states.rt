use cx_machine::{Entry, Kind, Op, State};
use cx_names::{NoMemory, Reply, ThreadNo};

fn change(op: Op, a: i64, reply: Reply) -> Entry {
    Entry {
        by: ThreadNo(0),
        op,
        a,
        b: 0,
        reply,
    }
}

#[test]
fn changes_that_take_memory(rt: HostRuntime) -> Result<(), NoMemory> {
    let mut stop = State::opening(rt.alloc(), Kind::Stop { sources: 1 })?;
    assert!(rt; stop.apply(&change(Op::Register, 3, Reply::Ok))?);
    assert_eq!(rt; stop.first_registered(), Some(3));
    assert!(rt; !stop.apply(&change(Op::Register, 3, Reply::Ok))?);

    let mut condition = State::opening(rt.alloc(), Kind::Condition)?;
    assert!(rt; condition.apply(&change(Op::Enter, 0, Reply::Ok))?);
    assert_eq!(rt;
        condition.reply_now(ThreadNo(1), Op::NotifyOne, 0, 0),
        Reply::Thread(ThreadNo(0))
    );

    let numbers = Kind::Mutex {
        recursive: false,
        numbers: 2,
    };
    let mut mutex = State::opening(rt.alloc(), numbers)?;
    assert!(rt; mutex.apply(&change(Op::Lock, 0, Reply::Ok))?);
    assert_eq!(rt;
        mutex.reply_now(ThreadNo(0), Op::Get, 1, 0),
        Reply::Number(0)
    );
    Ok(())
}
