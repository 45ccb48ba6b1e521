use cx_items::{Control, Form, Forms, Item, Local, Wanted};
use cx_machine::{Entry, Look, Op};
use cx_names::{NoMemory, ObjectNo, Reply, ThreadNo};
use cx_scene::{Call, Object, Plan, Thread};
use std::alloc::Global;

const MAIN: ThreadNo = ThreadNo(0);

const FIRST: ObjectNo = ObjectNo(0);

/// A plan of one object and the body of main.
fn plan_of(alloc: Global, object: Object, body: Vec<Call>) -> Result<Plan, NoMemory> {
    let mut objects = Vec::new(alloc);
    objects.push(object)?;
    let mut bodies = Vec::new(alloc);
    bodies.push(body)?;
    let mut threads = Vec::new(alloc);
    threads.push(Thread::Plain)?;
    threads.push(Thread::Plain)?;
    Ok(Plan {
        version: 1,
        threads,
        objects,
        callbacks: Vec::new(alloc),
        bodies,
    })
}

fn entry(op: Op, a: i64, reply: Reply) -> Entry {
    Entry {
        by: MAIN,
        op,
        a,
        b: 0,
        reply,
    }
}

/// Whether exactly this change of the first object is offered.
fn is_offered(forms: &Vec<Form>, word: Op) -> bool {
    match forms.as_slice() {
        [Form::Change(FIRST, op, 0, 0, Wanted::Just(Reply::Ok))] => *op as u8 == word as u8,
        _ => false,
    }
}

#[test]
fn a_mutex_is_locked_and_unlocked(rt: HostRuntime) -> Result<(), NoMemory> {
    let mut body = Vec::new(rt.alloc());
    body.push(Call::Lock(FIRST))?;
    body.push(Call::Unlock(FIRST))?;
    let plan = plan_of(rt.alloc(), Object::Mutex { numbers: 0 }, body)?;
    let mut main = Local::start(rt.alloc(), &plan, MAIN)?;
    let mut forms = Vec::new(rt.alloc());
    main.offered(&plan, MAIN, &mut forms)?;
    assert!(rt; is_offered(&forms, Op::Lock));
    let said = Item::Said(Reply::Ok);
    let early = main.after_item(&plan, MAIN, false, &said)?;
    assert!(rt; !early);
    let lock = Item::Change(FIRST, 0, entry(Op::Lock, 0, Reply::Ok));
    let locked = main.after_item(&plan, MAIN, false, &lock)?;
    assert!(rt; locked);
    assert!(rt; matches!(main.due_reply(), Some(Reply::Ok)));
    let replied = main.after_item(&plan, MAIN, false, &said)?;
    assert!(rt; replied);
    main.offered(&plan, MAIN, &mut forms)?;
    assert!(rt; is_offered(&forms, Op::Unlock));
    let unlock = Item::Change(FIRST, 1, entry(Op::Unlock, 0, Reply::Ok));
    let unlocked = main.after_item(&plan, MAIN, false, &unlock)?;
    assert!(rt; unlocked);
    assert!(rt; !main.is_ended(&plan, MAIN));
    let done = main.after_item(&plan, MAIN, false, &said)?;
    assert!(rt; done);
    assert!(rt; main.is_ended(&plan, MAIN));
    Ok(())
}

#[test]
fn a_body_ends_with_the_unlocks(rt: HostRuntime) -> Result<(), NoMemory> {
    let mut body = Vec::new(rt.alloc());
    body.push(Call::Lock(FIRST))?;
    let plan = plan_of(rt.alloc(), Object::Mutex { numbers: 0 }, body)?;
    let mut main = Local::start(rt.alloc(), &plan, MAIN)?;
    let lock = Item::Change(FIRST, 0, entry(Op::Lock, 0, Reply::Ok));
    let locked = main.after_item(&plan, MAIN, false, &lock)?;
    assert!(rt; locked);
    let replied = main.after_item(&plan, MAIN, false, &Item::Said(Reply::Ok))?;
    assert!(rt; replied);
    assert!(rt; !main.is_ended(&plan, MAIN));
    let mut forms = Vec::new(rt.alloc());
    main.offered(&plan, MAIN, &mut forms)?;
    assert!(rt; is_offered(&forms, Op::Unlock));
    Ok(())
}

#[test]
fn an_unlock_is_refused(rt: HostRuntime) -> Result<(), NoMemory> {
    let mut body = Vec::new(rt.alloc());
    body.push(Call::Unlock(FIRST))?;
    let plan = plan_of(rt.alloc(), Object::Mutex { numbers: 0 }, body)?;
    let main = Local::start(rt.alloc(), &plan, MAIN)?;
    assert!(rt; matches!(main.due_reply(), Some(Reply::OperationNotPermitted)));
    Ok(())
}

#[test]
fn a_completion_is_due_or_left_out(rt: HostRuntime) -> Result<(), NoMemory> {
    let mut body = Vec::new(rt.alloc());
    body.push(Call::Arrive(FIRST, 1))?;
    body.push(Call::Arrive(FIRST, 1))?;
    let object = Object::Barrier {
        count: 1,
        small: None,
    };
    let plan = plan_of(rt.alloc(), object, body)?;
    let mut main = Local::start(rt.alloc(), &plan, MAIN)?;
    let arrive = Item::Change(FIRST, 0, entry(Op::Arrive, 1, Reply::Number(0)));
    let arrived = main.after_item(&plan, MAIN, true, &arrive)?;
    assert!(rt; arrived);
    let mut forms = Vec::new(rt.alloc());
    main.offered(&plan, MAIN, &mut forms)?;
    assert!(rt; is_offered(&forms, Op::Complete));
    let complete = Item::Change(FIRST, 1, entry(Op::Complete, 0, Reply::Ok));
    let completed = main.after_item(&plan, MAIN, false, &complete)?;
    assert!(rt; completed);
    let replied = main.after_item(&plan, MAIN, false, &Item::Said(Reply::Number(0)))?;
    assert!(rt; replied);
    let arrive = Item::Change(FIRST, 2, entry(Op::Arrive, 1, Reply::Number(1)));
    let arrived = main.after_item(&plan, MAIN, false, &arrive)?;
    assert!(rt; arrived);
    main.offered(&plan, MAIN, &mut forms)?;
    assert_eq!(rt; forms.len(), 2);
    main.offered_now(&plan, MAIN, &mut forms)?;
    assert!(rt; matches!(forms.as_slice(), [Form::Says(Reply::Number(1))]));
    main.settle();
    assert!(rt; matches!(main.due_reply(), Some(Reply::Number(1))));
    Ok(())
}

#[test]
fn a_thread_is_started_and_joined(rt: HostRuntime) -> Result<(), NoMemory> {
    let other = ThreadNo(1);
    let mut body = Vec::new(rt.alloc());
    body.push(Call::Join(other))?;
    body.push(Call::Start(other))?;
    body.push(Call::Join(other))?;
    let plan = plan_of(rt.alloc(), Object::Once, body)?;
    let mut main = Local::start(rt.alloc(), &plan, MAIN)?;
    let refused = Item::Said(Reply::InvalidArgument);
    let replied = main.after_item(&plan, MAIN, false, &refused)?;
    assert!(rt; replied);
    let start = Item::Control(Control::Start(other, true));
    let started = main.after_item(&plan, MAIN, false, &start)?;
    assert!(rt; started);
    let replied = main.after_item(&plan, MAIN, false, &Item::Said(Reply::Ok))?;
    assert!(rt; replied);
    let mut forms = Vec::new(rt.alloc());
    main.offered(&plan, MAIN, &mut forms)?;
    assert!(rt; matches!(forms.as_slice(), [Form::Does(Control::Join(ThreadNo(1)))]));
    Ok(())
}

#[test]
fn a_semaphore_is_full(rt: HostRuntime) -> Result<(), NoMemory> {
    let mut body = Vec::new(rt.alloc());
    body.push(Call::Release(FIRST, 3))?;
    let plan = plan_of(rt.alloc(), Object::Semaphore { count: 1, max: 2 }, body)?;
    let mut main = Local::start(rt.alloc(), &plan, MAIN)?;
    let over = Look {
        by: MAIN,
        op: Op::Release,
        a: 3,
        b: 0,
        reply: Reply::Over,
        at: 0,
    };
    let looked = main.after_item(&plan, MAIN, false, &Item::Look(FIRST, over))?;
    assert!(rt; looked);
    assert!(rt; matches!(main.due_reply(), Some(Reply::Over)));
    Ok(())
}

#[test]
fn forms_are_put_behind_others(rt: HostRuntime) -> Result<(), NoMemory> {
    let (yes, no) = (Form::Says(Reply::True), Form::Says(Reply::False));
    let mut out = Vec::new(rt.alloc());
    Forms::One(Form::Says(Reply::Ok)).push_to(&mut out)?;
    Forms::Two(yes, no).push_to(&mut out)?;
    assert!(rt;
        matches!(
            out.as_slice(),
            [
                Form::Says(Reply::Ok),
                Form::Says(Reply::True),
                Form::Says(Reply::False)
            ]
        )
    );
    Ok(())
}
