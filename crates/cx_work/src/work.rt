//! The job of a thread: its body on real objects.
ghost use Rattle.std.specs.Prelude.{◌≡◌, ◌≤◌, ◌<◌, ◌∷◌, ◌+◌, ◌-◌, ◌*◌, ◌^◌, [], min, IfOk, OnOk, true, false, length, vec_len};
ghost use Rattle.cx_scene.specs.Scene.{scene_of, body_of};
ghost use Rattle.cx_items.specs.Next.{is_ended};
ghost use Rattle.cx_items.specs.Steps.{local_of};
ghost use Rattle.cx_fronts.specs.Counts.{change_count};
ghost use Rattle.cx_asks.specs.Scenes.{IsAskable};
ghost use Rattle.cx_work.specs.Bodies.{IsBody, IsUnderway};
ghost use Rattle.cx_work.specs.Reserves.{AreEnough};
ghost use Rattle.cx_work.specs.Steps.{IsAt};
ghost use Rattle.cx_work.specs.Accesses.{AreMadeAs, AreAccesses, HoldNothing, objects_of};

use crate::gate::Gate;
use crate::objects::Objects;
use crate::standing::Standing;
use cx_io::Job;
use cx_items::Item;
use cx_kinds::Access;
use cx_names::{NoMemory, ThreadNo};
use cx_scene::Plan;
use std::alloc::Global;
use std::sync::{Arc, Wait};

// How many items a call makes, but for waits and locks that begin again; and how many acts a body's end makes on an object.
const ITEMS_OF_A_CALL: usize = 8;

/// A thread's body as a job [thread.thread.class]. `new` makes one that is fit to run.
#[derive(Drop)]
pub struct Work<G: Gate + Send + Sync> {
    /// The thread at the start of its body, with its accesses.
    pub standing: Standing,
    /// The scenario of the objects.
    pub objects: Objects,
    /// What is called round each call of the text.
    pub gate: Arc<G, Global>,
}

/// What a thread's body gives.
#[derive(Drop)]
pub struct Ended {
    /// The thread's number.
    pub thread: ThreadNo,
    /// The items of the whole body in their order, empty where memory ran out.
    pub list: Vec<Item>,
    /// What the thread has of each object, by its number.
    pub accesses: Vec<Access>,
    /// How many changes the list tells of, so 0 where memory ran out.
    pub made: u64,
    /// Whether memory ran out before the body's end.
    pub failed: bool,
}

/// How many items to reserve for the body of thread `thread`: eight for each call of its text, and one for
/// each object, or the greatest number if that is more.
pub fn room_for(plan: &Plan, thread: ThreadNo) -> usize
    ensures { result ≡ min (2 ^ 64 - 1) (length (body_of (scene_of plan.now) thread.0) * 8 + vec_len plan.now.objects) }
{
    let calls = plan.body(thread).len().saturating_mul(ITEMS_OF_A_CALL);
    calls.saturating_add(plan.objects.len())
}

/// 1 for a change, and 0 for another item.
fn is_change(item: &Item) -> u64
    ensures count { result ≡ change_count (item.now ∷ []) }
    ensures one { result ≤ 1 }
{
    match item {
        Item::Change(..) => 1,
        _ => 0,
    }
}

/// How many of the items are changes.
fn change_count(list: &[Item]) -> u64
    ensures { result ≡ change_count list.now }
{
    let mut count = 0;
    for i in 0..list.len() {
        count += is_change(&list[i]);
    }
    count
}

/// Makes the items of the thread's body to its end. After an error it makes none.
fn make_all<R: Wait, G: Gate>(
    rt: &R,
    plan: &Plan,
    standing: &mut Standing,
    gate: &G,
) -> Result<(), NoMemory>
    requires asks { IsAskable (scene_of plan.now) }
    requires other { 0 < standing.old.thread.0 }
    requires made { AreMadeAs (scene_of plan.now).objects (objects_of standing.old.accesses.items) }
    requires under_way { IsUnderway (scene_of plan.now) standing.old.accesses.items standing.old }
    ensures thread { standing.new.thread ≡ standing.old.thread }
    ensures accesses { AreAccesses (objects_of standing.old.accesses.items) standing.new.thread.0 standing.new.accesses.items }
    ensures under_way { OnOk result (IsUnderway (scene_of plan.now) standing.old.accesses.items standing.new) }
    ensures ended { OnOk result (is_ended (local_of (scene_of plan.now) standing.new.thread.0 standing.new.local) ≡ true) }
{
    for _ in rt.forever() {
        standing.enter(plan, gate);
        if !standing.next(plan)? {
            return Ok(());
        }
        let item = standing.make(rt, plan)?;
        standing.leave(gate, &item);
    }
    unreachable!()
}

impl<G: Gate + Send + Sync> Work<G> {
    ghost use Rattle.cx_work.specs.Bodies.{Needs, scene_in};

    /// The body of thread `thread` of the scenario, which is not main, with that thread's accesses to these
    /// objects, which hold nothing and suffice for its text. `gate` is called round each call of its text.
    ///
    /// `NoMemory` where memory doesn't suffice. The list's room and that of the place in the text are taken
    /// here; a call that begins again takes more as the body runs.
    pub fn new(
        alloc: Global,
        objects: Objects,
        thread: ThreadNo,
        accesses: Vec<Access>,
        gate: Arc<G, Global>,
    ) -> Result<Work<G>, NoMemory>
        requires asks { IsAskable (scene_in objects) }
        requires other { 0 < thread.0 }
        requires made { AreMadeAs (scene_in objects).objects (objects_of accesses.items) }
        requires accesses { AreAccesses (objects_of accesses.items) thread.0 accesses.items }
        requires enough { AreEnough (scene_in objects) thread.0 accesses.items [] }
        ensures needs { IfOk result (λ w. Needs w) }
        ensures parts { IfOk result (λ w. (w.objects ≡ objects) × (w.standing.thread ≡ thread) × (w.standing.accesses ≡ accesses)) }
    {
        let room = room_for(&objects.plan, thread);
        let standing = Standing::start(alloc, &objects.plan, thread, accesses, room)?;
        Ok(Work {
            standing,
            objects,
            gate,
        })
    }
}

/// Makes the calls of the body and the acts of its end.
fn make_body<R: Wait, G: Gate>(rt: &R, plan: &Plan, mut standing: Standing, gate: &G) -> Ended
    requires asks { IsAskable (scene_of plan.now) }
    requires other { 0 < standing.thread.0 }
    requires made { AreMadeAs (scene_of plan.now).objects (objects_of standing.accesses.items) }
    requires accesses { AreAccesses (objects_of standing.accesses.items) standing.thread.0 standing.accesses.items }
    requires at { IsAt (scene_of plan.now) standing }
    requires fresh { standing.list.items ≡ [] }
    ensures thread { result.thread ≡ standing.thread }
    ensures accesses { AreAccesses (objects_of standing.accesses.items) result.thread.0 result.accesses.items }
    ensures made { result.made ≡ change_count result.list.items }
    ensures dropped { result.failed ≡ true → result.list.items ≡ [] }
    ensures free { result.failed ≡ true → HoldNothing result.accesses.items }
    ensures body { result.failed ≡ false → IsBody (scene_of plan.now) result.thread.0 standing.accesses.items result.list.items result.accesses.items }
{
    match make_all(rt, plan, &mut standing, gate) {
        Ok(()) => end(standing, false),
        Err(_) => {
            standing.give_up(rt);
            end(standing, true)
        }
    }
}

/// The body of a thread as a job: it makes the calls of the body and the acts of its end. It may wait for
/// other threads wherever a call of its text may.
impl<G: Gate + Send + Sync> Job for Work<G> {
    ghost use Rattle.cx_work.specs.Bodies.{Needs, Gives};

    type Out = Ended;

    ghost needs = { λ job. Needs job };

    ghost gives = { λ job out. Gives job out };

    ghost steps_of = { λ out. out.made };

    fn run<R: Wait>(self, rt: &R) -> Ended {
        let Work {
            standing,
            objects,
            gate,
        } = self;
        make_body(rt, &objects.plan, standing, &*gate)
    }

    fn steps(out: &Ended) -> u64 {
        out.made
    }
}

/// What a body gives that stands here. Its list is dropped where it failed.
fn end(standing: Standing, failed: bool) -> Ended
    ensures thread { result.thread ≡ standing.thread }
    ensures accesses { result.accesses ≡ standing.accesses }
    ensures list { failed ≡ false → result.list ≡ standing.list }
    ensures dropped { failed ≡ true → result.list.items ≡ [] }
    ensures made { result.made ≡ change_count result.list.items }
    ensures failed { result.failed ≡ failed }
{
    let Standing {
        thread,
        accesses,
        mut list,
        ..
    } = standing;
    if failed {
        list.clear();
    }
    let made = change_count(list.as_slice());
    Ended {
        thread,
        list,
        accesses,
        made,
        failed,
    }
}
