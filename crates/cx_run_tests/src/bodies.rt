use crate::plans::{A, LATCH, MUTEX, SEMAPHORE, a_shared_latch, one_works};
use cx_io::Job;
use cx_items::Item;
use cx_kinds::Access;
use cx_names::{NoMemory, ObjectNo, Reply, ThreadNo};
use cx_work::{Objects, Open, Work, room_for};
use std::sync::Arc;

/// The position or the stamp of an item of this object, or 1,000.
fn number_on(o: ObjectNo, item: &Item) -> u32 {
    match item {
        Item::Change(q, at, _) => { if q.0 == o.0 { *at } else { 1000 } }
        Item::Look(q, look) => { if q.0 == o.0 { look.at } else { 1000 } }
        _ => 1000,
    }
}

fn is_said(item: &Item, reply: Reply) -> bool {
    match item {
        Item::Said(said) => *said == reply,
        _ => false,
    }
}

#[test]
fn a_body_is_made(rt: HostRuntime) -> Result<(), NoMemory> {
    let plan = one_works(rt.alloc())?;
    let (objects, mut passes) = Objects::make(rt.alloc(), &plan)?;
    let accesses = passes.threads.remove(1);
    let gate = Arc::new(rt.alloc(), Open)?;
    let work = Work::new(rt.alloc(), objects, A, accesses, gate)?;
    let ended = work.run(&rt);
    assert!(rt; !ended.failed);
    assert_eq!(rt; ended.made, 7);
    let list = ended.list;
    assert_eq!(rt; list.len(), 19);
    let numbers = [0, 1, 2, 0, 0, 1, 0, 0, 1];
    let places = [
        MUTEX, MUTEX, MUTEX, SEMAPHORE, SEMAPHORE, SEMAPHORE, LATCH, LATCH, LATCH,
    ];
    let replies = [
        Reply::Ok,
        Reply::Ok,
        Reply::True,
        Reply::Over,
        Reply::Ok,
        Reply::Ok,
        Reply::False,
        Reply::Ok,
        Reply::Ok,
    ];
    for i in 0..9 {
        if let Some(item) = list.get(2 * i) {
            assert_eq!(rt; number_on(places[i], item), numbers[i]);
        }
        if let Some(item) = list.get(2 * i + 1) {
            assert!(rt; is_said(item, replies[i]));
        }
    }
    if let Some(item) = list.get(18) {
        assert_eq!(rt; number_on(MUTEX, item), 3);
    }
    Ok(())
}

#[test]
fn a_body_has_its_room(rt: HostRuntime) -> Result<(), NoMemory> {
    let plan = one_works(rt.alloc())?;
    assert_eq!(rt; room_for(&plan, A), 75);
    assert_eq!(rt; room_for(&plan, ThreadNo(0)), 3);
    Ok(())
}

/// The share of the latch that is object 1, or 1,000.
fn share_of(accesses: Option<&Vec<Access>>) -> u32 {
    match accesses {
        Some(accesses) => match accesses.get(1) {
            Some(Access::Latch(seat)) => seat.token.share(),
            _ => 1000,
        },
        None => 1000,
    }
}

#[test]
fn each_thread_gets_what_its_text_takes(rt: HostRuntime) -> Result<(), NoMemory> {
    let plan = a_shared_latch(rt.alloc())?;
    let (objects, passes) = Objects::make(rt.alloc(), &plan)?;
    assert_eq!(rt; objects.plan.objects.len(), 2);
    assert_eq!(rt; passes.threads.len(), 2);
    assert_eq!(rt; share_of(passes.threads.get(0)), 1);
    assert_eq!(rt; share_of(passes.threads.get(1)), 3);
    Ok(())
}
