//! Callers of a turn round a semaphore's state.
ghost use Rattle.std.specs.Prelude.{◌≡◌, ◌≤◌, ◌<◌, ◌+◌, IfSome};
ghost use Rattle.std.specs.Arc.{arc_value};
ghost use Rattle.cx_machine.specs.Semaphore.{Semaphore};
ghost use Rattle.cx_turn.specs.declared.view.View.{View};
ghost use Rattle.cx_turn.specs.Passes.{IsPassOf, IsPassWith, seats_of};
ghost use Rattle.cx_object_tests.specs.GoesOn.{GoesOn, kept, counting};

use cx_machine::{
    Entry, LatchMachine, LatchState, Machine, Op, SemaphoreMachine, SemaphoreState, StopMachine,
    StopRegistry,
};
use cx_names::{NoMemory, Reply, ThreadNo};
use cx_turn::{Note, Pass, Turn};
use std::alloc::Global;
use std::snapshot::Snapshot;
use std::sync::{Arc, Wait};
use std::test::Fail;
use std::thread::{Promise, PromisedHandle, Threads};
use std::{mem, thread};

type Gate = Turn<SemaphoreMachine, SemaphoreState>;

type Token = Pass<SemaphoreMachine>;

type Answer = Option<(Reply, u32)>;

type Door = Turn<LatchMachine, LatchState>;

// The share and the changes that a pass or a note has.
type Part = (u32, u32);

// Makes the change if it is enabled, and gives its reply and its position.
fn act<R: Wait>(rt: &R, gate: &Gate, pass: &mut Token, op: Op, n: i64) -> Answer
    requires pass { IsPassOf kept counting gate.now pass.old }
    requires left { 1 ≤ pass.old.left }
    ensures { (v : View Semaphore) → IsPassWith kept counting gate.now pass.old v → (w : View Semaphore) × IsPassWith kept counting gate.now pass.new w × GoesOn v w }
{
    let mut held = gate.take(rt, pass);
    let by = held.number();
    match held.state().reply(by, op, n, 0) {
        Some(reply) => {
            let at = held.change(Entry {
                by,
                op,
                a: n,
                b: 0,
                reply,
            });
            held.leave();
            Some((reply, at))
        }
        None => {
            held.leave();
            None
        }
    }
}

// The same, and counts the change in the step that gives the turn up.
fn act_at_once<R: Wait>(rt: &R, gate: &Gate, pass: &mut Token, op: Op, n: i64) -> Answer
    requires pass { IsPassOf kept counting gate.now pass.old }
    requires left { 1 ≤ pass.old.left }
    ensures { (v : View Semaphore) → IsPassWith kept counting gate.now pass.old v → (w : View Semaphore) × IsPassWith kept counting gate.now pass.new w × GoesOn v w }
{
    let mut held = gate.take(rt, pass);
    let by = held.number();
    match held.state().reply(by, op, n, 0) {
        Some(reply) => {
            let made = held.make(Entry {
                by,
                op,
                a: n,
                b: 0,
                reply,
            });
            let at = held.leave_with(made);
            Some((reply, at))
        }
        None => {
            held.leave();
            None
        }
    }
}

// The first caller releases two and wakes the second, which sleeps until then and acquires.
fn carry<R: Wait>(rt: &R, gate: &Gate, mut pass: Token, first: bool) -> (Token, Answer)
    requires pass { IsPassOf kept counting gate.now pass }
    requires left { 1 ≤ pass.left }
    requires seats { 1 < seats_of kept gate.now }
    ensures { (v : View Semaphore) → IsPassWith kept counting gate.now pass v → (w : View Semaphore) × IsPassWith kept counting gate.now result.0 w × GoesOn v w }
{
    if first {
        let answer = act(rt, gate, &mut pass, Op::Release, 2);
        gate.wake(&mut pass, ThreadNo(1));
        return (pass, answer);
    }
    gate.sleep(rt, &mut pass);
    let answer = act(rt, gate, &mut pass, Op::Acquire, 0);
    (pass, answer)
}

// What a thread owes: the pass that it was given, gone on.
#[derive(Drop)]
struct Due {
    gate: Snapshot<Gate>,
    pass: Snapshot<Token>,
}

impl Promise<(Token, Answer)> for Due {
    ghost kept_by = { λ p r. (v : View Semaphore) → IsPassWith kept counting p.gate.value p.pass.value v → (w : View Semaphore) × IsPassWith kept counting p.gate.value r.0 w × GoesOn v w };
}

fn start<R: Threads + Wait + Copy + Send + 'static>(
    rt: &R,
    gate: Arc<Gate, Global>,
    pass: Token,
    first: bool,
) -> Option<PromisedHandle<(Token, Answer), Due>>
    requires { IsPassOf kept counting (arc_value gate) pass × (1 ≤ pass.left) × (1 < seats_of kept (arc_value gate)) }
    ensures { IfSome result (λ h. (h.promise.gate.value ≡ arc_value gate) × (h.promise.pass.value ≡ pass)) }
{
    let due = Due {
        gate: Snapshot::of(&*gate),
        pass: Snapshot::of(&pass),
    };
    let inner = *rt;
    thread::spawn_with(
        rt,
        due,
        move || -> (Token, Answer)
            requires { IsPassOf kept counting (arc_value gate) pass × (1 ≤ pass.left) × (1 < seats_of kept (arc_value gate)) }
            ensures { (v : View Semaphore) → IsPassWith kept counting (arc_value gate) pass v → (w : View Semaphore) × IsPassWith kept counting (arc_value gate) result.0 w × GoesOn v w }
        { carry(&inner, &gate, pass, first) },
    )
    .ok()
}

// Takes the second pass in, and ends the turn. Gives the length of the history too.
fn end(gate: Gate, mut first: Token, second: Token) -> (u32, SemaphoreState)
    requires first { (v : View Semaphore) × IsPassWith kept counting gate first v × (v.number ≡ 0) × (v.splits ≡ 1) }
    requires second { (w : View Semaphore) × IsPassWith kept counting gate second w × (w.number ≡ 1) }
{
    gate.join(&mut first, second);
    let len = first.len();
    (len, gate.close(first))
}

#[derive(Drop)]
struct Outcome {
    first: Answer,
    second: Answer,
    split_left: u32,
    split_len: u32,
    len: u32,
    state: SemaphoreState,
}

// One thread releases two, the second pass is split off and acquires one, and the turn ends.
fn relay<R: Wait>(rt: &R, alloc: Global) -> Result<Outcome, NoMemory> {
    let (gate, mut pass) = Gate::new(alloc, SemaphoreState::new(0, 2), 2, 4)?;
    let first = act(rt, &gate, &mut pass, Op::Release, 2);
    let mut other = gate.split(&mut pass, 1);
    let (split_left, split_len) = (other.left(), other.len());
    let second = act(rt, &gate, &mut other, Op::Acquire, 0);
    let (len, state) = end(gate, pass, other);
    Ok(Outcome {
        first,
        second,
        split_left,
        split_len,
        len,
        state,
    })
}

// One thread releases one, and then as many more. Gives the second answer, and the pass's numbers.
fn releases_twice<R: Wait>(rt: &R, alloc: Global, n: i64) -> Result<(Answer, u32, u32), NoMemory> {
    let (gate, mut pass) = Gate::new(alloc, SemaphoreState::new(0, 2), 1, 4)?;
    act_at_once(rt, &gate, &mut pass, Op::Release, 1);
    let second = act_at_once(rt, &gate, &mut pass, Op::Release, n);
    Ok((second, pass.len(), pass.left()))
}

// What `relay` does, by two threads. None where a thread could not be started.
fn both<R: Threads + Wait + Copy + Send + 'static>(
    rt: &R,
    alloc: Global,
) -> Result<Option<Outcome>, NoMemory> {
    let (gate, mut pass) = Gate::new(alloc, SemaphoreState::new(0, 2), 2, 4)?;
    let other = gate.split(&mut pass, 1);
    let (split_left, split_len) = (other.left(), other.len());
    let shared = Arc::new(alloc, gate)?;
    let one = Arc::try_clone(&shared)?;
    let two = Arc::try_clone(&shared)?;
    let Some(b) = start(rt, two, other, false) else {
        return Ok(None);
    };
    let Some(a) = start(rt, one, pass, true) else {
        return Ok(None);
    };
    let (pass, first) = a.join(rt);
    let (other, second) = b.join(rt);
    let Some(gate) = Arc::into_inner(shared) else {
        return Ok(None);
    };
    let (len, state) = end(gate, pass, other);
    Ok(Some(Outcome {
        first,
        second,
        split_left,
        split_len,
        len,
        state,
    }))
}

// Makes room for a callback in the opening state of a stop, and says whether there was memory.
fn reserves<R: Wait>(rt: &R, alloc: Global) -> Result<bool, NoMemory> {
    let state = StopRegistry::<u32>::new(alloc, 1);
    let (gate, mut pass) = Turn::<StopMachine, StopRegistry<u32>>::new(alloc, state, 1, 4)?;
    let mut held = gate.take(rt, &mut pass);
    let done = held.reserve().is_ok();
    held.leave();
    Ok(done)
}

// A note of one unit is cut off the pass of a latch of two, and cut again. Gives what each has then.
fn cuts(alloc: Global) -> Result<[Part; 3], NoMemory> {
    let (door, mut pass) = Door::new(alloc, LatchState::new(2), 2, 4)?;
    let mut note = door.note(&mut pass, 1, 1, None);
    let part = door.part(&mut note, 1);
    Ok([
        (pass.share(), pass.left()),
        (note.share(), note.left()),
        (part.share(), part.left()),
    ])
}

// The same note goes back to its pass.
fn cuts_and_mends(alloc: Global) -> Result<Part, NoMemory> {
    let (door, mut pass) = Door::new(alloc, LatchState::new(2), 2, 4)?;
    let note = door.note(&mut pass, 1, 1, None);
    door.take_in(&mut pass, note);
    Ok((pass.share(), pass.left()))
}

// A note is moved out of its place. Gives what was moved, and what is left there.
fn moves_out(alloc: Global) -> Result<(Part, Part), NoMemory> {
    let (door, mut pass) = Door::new(alloc, LatchState::new(2), 2, 4)?;
    let mut note = door.note(&mut pass, 1, 1, None);
    let moved = mem::replace(&mut note, Note::blank());
    Ok(((moved.share(), moved.left()), (note.share(), note.left())))
}

// The first pass of a latch of two gives the second one of its units.
fn gives(alloc: Global) -> Result<[Part; 2], NoMemory> {
    let (door, mut first) = Door::new(alloc, LatchState::new(2), 2, 4)?;
    let mut second = door.split(&mut first, 1);
    door.give(&mut first, &mut second, 1);
    Ok([
        (first.share(), first.left()),
        (second.share(), second.left()),
    ])
}

// The first caller releases one, and the second, who was split off before, meets it. Gives how many changes
// the second has seen before and after.
fn meets<R: Wait>(rt: &R, alloc: Global) -> Result<(u32, u32), NoMemory> {
    let (gate, mut first) = Gate::new(alloc, SemaphoreState::new(0, 2), 2, 4)?;
    let mut second = gate.split(&mut first, 1);
    let before = second.len();
    let _answer = act(rt, &gate, &mut first, Op::Release, 1);
    gate.meet(&mut first, &mut second);
    Ok((before, second.len()))
}

// Says whether the hand is empty, and whether the state has room, by what the turn lends.
fn lends<R: Wait>(rt: &R, alloc: Global) -> Result<(bool, bool), NoMemory> {
    let (door, mut pass) = Door::new(alloc, LatchState::new(2), 1, 4)?;
    let mut held = door.take(rt, &mut pass);
    let empty = held.hand().take().is_none();
    let room = held.state_mut().reserve(1).is_ok();
    held.leave();
    Ok((empty, room))
}

#[test]
fn parts_of_a_pass_go_round(rt: HostRuntime) -> Result<(), Fail> {
    assert!(rt; cuts(rt.alloc())? == [(1, 3), (0, 1), (1, 0)]);
    assert!(rt; cuts_and_mends(rt.alloc())? == (2, 4));
    assert!(rt; moves_out(rt.alloc())? == ((1, 1), (0, 0)));
    assert!(rt; gives(rt.alloc())? == [(1, 3), (1, 1)]);
    assert!(rt; meets(&rt, rt.alloc())? == (0, 1));
    Ok(())
}

#[test]
fn a_taken_turn_lends_its_hand_and_state(rt: HostRuntime) -> Result<(), Fail> {
    assert!(rt; lends(&rt, rt.alloc())? == (true, true));
    Ok(())
}

#[test]
fn a_stop_has_room_for_a_callback(rt: HostRuntime) -> Result<(), Fail> {
    assert!(rt; reserves(&rt, rt.alloc())?);
    Ok(())
}

#[test]
fn a_change_is_counted_as_the_turn_is_given_up(rt: HostRuntime) -> Result<(), Fail> {
    assert!(rt; releases_twice(&rt, rt.alloc(), 1)? == (Some((Reply::Ok, 1)), 2, 2));
    // the counter is 1, and its greatest value 2
    assert!(rt; releases_twice(&rt, rt.alloc(), 2)? == (None, 1, 3));
    Ok(())
}

#[test]
fn releases_and_acquires(rt: HostRuntime) -> Result<(), Fail> {
    let out = relay(&rt, rt.alloc())?;
    assert!(rt; out.first == Some((Reply::Ok, 0)));
    assert!(rt; out.second == Some((Reply::Ok, 1)));
    assert!(rt; out.split_left == 1 && out.split_len == 1);
    assert!(rt; out.len == 2);
    // the counter is 1: one more can be taken, and then none
    assert!(rt;
        out.state
            .enables(ThreadNo(0), Op::Acquire, Some(0), 0, Reply::Ok)
    );
    assert!(rt;
        out.state
            .enables(ThreadNo(0), Op::Release, Some(1), 0, Reply::Ok)
    );
    assert!(rt;
        !out.state
            .enables(ThreadNo(0), Op::Release, Some(2), 0, Reply::Ok)
    );
    Ok(())
}

#[test]
fn two_threads_act_and_the_turn_ends(rt: HostRuntime) -> Result<(), Fail> {
    let Some(out) = both(&rt, rt.alloc())? else {
        assert!(rt; false);
        return Ok(());
    };
    assert!(rt; out.first == Some((Reply::Ok, 0)));
    assert!(rt; out.second == Some((Reply::Ok, 1)));
    assert!(rt; out.split_left == 1 && out.split_len == 0);
    assert!(rt; out.len == 2);
    assert!(rt;
        !out.state
            .enables(ThreadNo(0), Op::Release, Some(2), 0, Reply::Ok)
    );
    Ok(())
}
