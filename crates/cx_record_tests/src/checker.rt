use cx_checker::{Verdict, check_record};
use cx_history::{Cause, Items, List, Record};
use cx_items::{Control, Item};
use cx_machine::{Entry, Look, Op};
use cx_names::{NoMemory, ObjectNo, Reply, ThreadNo};
use cx_scene::{Call, Object, Plan, Thread};
use std::alloc::Global;

const Q: ObjectNo = ObjectNo(0);

const M: ObjectNo = ObjectNo(1);

const OK: Item = Item::Said(Reply::Ok);

fn change(t: u32, o: ObjectNo, position: u32, op: Op, a: i64) -> Item {
    let entry = Entry {
        by: ThreadNo(t),
        op,
        a,
        b: 0,
        reply: Reply::Ok,
    };
    Item::Change(o, position, entry)
}

/// Main looks that a release of 3 is over.
fn over(at: u32) -> Item {
    let look = Look {
        by: ThreadNo(0),
        op: Op::Release,
        a: 3,
        b: 0,
        reply: Reply::Over,
        at,
    };
    Item::Look(Q, look)
}

fn start(t: u32) -> Item {
    Item::Control(Control::Start(ThreadNo(t), true))
}

fn join(t: u32) -> Item {
    Item::Control(Control::Join(ThreadNo(t)))
}

fn put(lists: &mut Vec<List>, alloc: Global, list: &[Item]) -> Result<(), NoMemory> {
    let mut items = Vec::new(alloc);
    for item in list {
        items.push(*item)?;
    }
    lists.push(List {
        started: true,
        items: Items { items },
    })?;
    Ok(())
}

fn is_at(verdict: Verdict, t: u32, i: u32, why: Cause) -> bool {
    match verdict {
        Verdict::Illegal {
            thread,
            item,
            cause,
        } => thread.0 == t && item == i && cause as u8 == why as u8,
        Verdict::Legal => false,
    }
}

fn is_legal(verdict: Verdict) -> bool {
    matches!(verdict, Verdict::Legal)
}

/// A semaphore with counter 0 and greatest value 2, a mutex, and threads besides main.
fn plan_of(alloc: Global, threads: usize, bodies: Vec<Vec<Call>>) -> Result<Plan, NoMemory> {
    let mut objects = Vec::new(alloc);
    objects.push(Object::Semaphore { count: 0, max: 2 })?;
    objects.push(Object::Mutex { numbers: 0 })?;
    let mut all = Vec::new(alloc);
    for _ in 0..threads {
        all.push(Thread::Plain)?;
    }
    Ok(Plan {
        version: 1,
        threads: all,
        objects,
        callbacks: Vec::new(alloc),
        bodies,
    })
}

/// Main starts two threads, releases 2 and joins them; each acquires, locks and unlocks.
fn two_threads(alloc: Global) -> Result<Plan, NoMemory> {
    let mut bodies = Vec::new(alloc);
    let mut main = Vec::new(alloc);
    main.push(Call::Start(ThreadNo(1)))?;
    main.push(Call::Start(ThreadNo(2)))?;
    main.push(Call::Release(Q, 2))?;
    main.push(Call::Join(ThreadNo(1)))?;
    main.push(Call::Join(ThreadNo(2)))?;
    bodies.push(main)?;
    for _ in 0..2 {
        let mut body = Vec::new(alloc);
        body.push(Call::Acquire(Q))?;
        body.push(Call::Lock(M))?;
        body.push(Call::Unlock(M))?;
        bodies.push(body)?;
    }
    plan_of(alloc, 3, bodies)
}

/// The record of the two threads, with this reply of a's first call and this last position of b.
fn checked(alloc: Global, reply: Reply, last: u32) -> Result<Verdict, NoMemory> {
    let plan = two_threads(alloc)?;
    let mut lists = Vec::new(alloc);
    let release = change(0, Q, 0, Op::Release, 2);
    let main = [
        start(1),
        OK,
        start(2),
        OK,
        release,
        OK,
        join(1),
        OK,
        join(2),
        OK,
    ];
    put(&mut lists, alloc, &main)?;
    let said = Item::Said(reply);
    let acquire = change(1, Q, 1, Op::Acquire, 0);
    let lock = change(1, M, 0, Op::Lock, 0);
    let unlock = change(1, M, 1, Op::Unlock, 0);
    put(&mut lists, alloc, &[acquire, said, lock, OK, unlock, OK])?;
    let acquire = change(2, Q, 2, Op::Acquire, 0);
    let lock = change(2, M, 2, Op::Lock, 0);
    let unlock = change(2, M, last, Op::Unlock, 0);
    put(&mut lists, alloc, &[acquire, OK, lock, OK, unlock, OK])?;
    check_record(alloc, &plan, &Record { version: 1, lists })
}

/// Main releases 3, which is over after `at` changes, and then 2.
fn looked(alloc: Global, at: u32) -> Result<Verdict, NoMemory> {
    let mut main = Vec::new(alloc);
    main.push(Call::Release(Q, 3))?;
    main.push(Call::Release(Q, 2))?;
    let mut bodies = Vec::new(alloc);
    bodies.push(main)?;
    let plan = plan_of(alloc, 1, bodies)?;
    let mut lists = Vec::new(alloc);
    let release = change(0, Q, 0, Op::Release, 2);
    let said = Item::Said(Reply::Over);
    put(&mut lists, alloc, &[over(at), said, release, OK])?;
    check_record(alloc, &plan, &Record { version: 1, lists })
}

/// Main releases 1 at `first`, starts a thread that releases 1 at `second`, and joins it.
fn started(alloc: Global, first: u32, second: u32) -> Result<Verdict, NoMemory> {
    let mut main = Vec::new(alloc);
    main.push(Call::Release(Q, 1))?;
    main.push(Call::Start(ThreadNo(1)))?;
    main.push(Call::Join(ThreadNo(1)))?;
    let mut body = Vec::new(alloc);
    body.push(Call::Release(Q, 1))?;
    let mut bodies = Vec::new(alloc);
    bodies.push(main)?;
    bodies.push(body)?;
    let plan = plan_of(alloc, 2, bodies)?;
    let mut lists = Vec::new(alloc);
    let release = change(0, Q, first, Op::Release, 1);
    put(&mut lists, alloc, &[release, OK, start(1), OK, join(1), OK])?;
    let release = change(1, Q, second, Op::Release, 1);
    put(&mut lists, alloc, &[release, OK])?;
    check_record(alloc, &plan, &Record { version: 1, lists })
}

#[test]
fn texts_and_gaps(rt: HostRuntime) -> Result<(), NoMemory> {
    assert!(rt; is_legal(checked(rt.alloc(), Reply::Ok, 3)?));
    assert!(rt; is_at(checked(rt.alloc(), Reply::True, 3)?, 1, 1, Cause::Text));
    assert!(rt; is_at(checked(rt.alloc(), Reply::Ok, 4)?, 2, 4, Cause::Gap));
    assert!(rt;
        is_at(
            checked(rt.alloc(), Reply::Ok, 268_435_455)?,
            2,
            4,
            Cause::Gap
        )
    );
    assert!(rt; is_at(checked(rt.alloc(), Reply::Ok, 2)?, 2, 4, Cause::Gap));
    assert!(rt; is_at(checked(rt.alloc(), Reply::True, 2)?, 1, 1, Cause::Text));
    Ok(())
}

#[test]
fn looks_and_places(rt: HostRuntime) -> Result<(), NoMemory> {
    assert!(rt; is_legal(looked(rt.alloc(), 0)?));
    assert!(rt; is_at(looked(rt.alloc(), 2)?, 0, 0, Cause::Shown));
    assert!(rt; is_at(looked(rt.alloc(), 1)?, 0, 2, Cause::Fell));
    Ok(())
}

#[test]
fn starts(rt: HostRuntime) -> Result<(), NoMemory> {
    assert!(rt; is_legal(started(rt.alloc(), 0, 1)?));
    assert!(rt; is_at(started(rt.alloc(), 1, 0)?, 1, 0, Cause::Order));
    assert!(rt; is_at(started(rt.alloc(), 0, 0)?, 1, 0, Cause::Gap));
    Ok(())
}
