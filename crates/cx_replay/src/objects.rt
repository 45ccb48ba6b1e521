ghost use Rattle.std.specs.Prelude.{◌≡◌, ◌^◌, ◌<◌, map, is_some, IfOk, Some, None, unwrap_or};
ghost use Rattle.std.specs.Option.{option_map};
ghost use Rattle.cx_names.specs.declared.Reply.TheVariants as replies;
ghost use Rattle.cx_machine.specs.Machine.{opening};
ghost use Rattle.cx_machine.specs.Now.{first_registered, reply_now};
ghost use Rattle.cx_scene.specs.Scene.{kind_of};
ghost use Rattle.cx_replay.specs.Schedule.{thing_at, made_change, made_look, given_reply, reply_of, is_completing_now, opening_thing};
ghost use Rattle.cx_history.specs.Follows.{is_completing};
ghost use Rattle.cx_items.specs.Next.{is_due};
ghost use Rattle.cx_replay.specs.Views.{thing_of, of_objects, Makes, Changes, HasRoom};

use cx_items::{Item, Wanted};
use cx_machine::{Entry, Look, Op, State};
use cx_names::{NoMemory, ObjectNo, Reply, ThreadNo};
use cx_scene::Object;
use std::alloc::Global;

/// An object of a replay: its state, and how many changes led there.
#[derive(Drop)]
pub struct ObjectNow {
    pub state: State,
    pub changes: u32,
}

/// The objects as they open.
pub fn open(alloc: Global, objects: &[Object]) -> Result<Vec<ObjectNow>, NoMemory>
    ensures { IfOk result (λ v. map thing_of v.items ≡ map opening_thing objects.now) }
{
    let mut opened = Vec::new(alloc);
    for object in objects {
        let state = State::opening(alloc, object.kind())?;
        opened.push(ObjectNow { state, changes: 0 })?;
    }
    Ok(opened)
}

/// The reply that a form wants: its own, or the machine's where that is of the wanted sort.
fn given_reply(wanted: Wanted, now: Reply) -> Option<Reply>
    ensures { result ≡ given_reply wanted now }
{
    match (wanted, now) {
        (Wanted::Just(reply), _) => Some(reply),
        (Wanted::ANumber, Reply::Number(_)) => Some(now),
        (Wanted::AThread, Reply::Thread(_)) => Some(now),
        (Wanted::AThread, Reply::Nobody) => Some(now),
        (Wanted::AnOutcome, Reply::Outcome(_)) => Some(now),
        _ => None,
    }
}

/// The reply of the machine now; `ok` where the object isn't there.
fn reply_now(objects: &[ObjectNow], t: ThreadNo, o: ObjectNo, op: Op, a: i64, b: i64) -> Reply
    ensures { result ≡ unwrap_or (option_map (λ x. reply_now x.state t.0 op a b) (thing_at (of_objects objects.now) o)) replies.Ok }
{
    match objects.get(o.0 as usize) {
        Some(object) => object.state.reply_now(t, op, a, b),
        None => Reply::Ok,
    }
}

/// The reply of an act of thread `t` on object `o` now, where it is of the wanted sort.
pub fn reply_of(
    objects: &[ObjectNow],
    t: ThreadNo,
    o: ObjectNo,
    op: Op,
    a: i64,
    b: i64,
    wanted: Wanted,
) -> Option<Reply>
    ensures { result ≡ reply_of (of_objects objects.now) t.0 o op a b wanted }
{
    given_reply(wanted, reply_now(objects, t, o, op, a, b))
}

/// Makes a change where its machine allows it now.
pub fn make_change(
    objects: &mut Vec<ObjectNow>,
    o: ObjectNo,
    e: Entry,
) -> Result<Option<Item>, NoMemory>
    requires { HasRoom (map thing_of objects.old.items) }
    ensures { IfOk result (λ item. Makes item (made_change (of_objects objects.old.items) o e (thing_at (of_objects objects.old.items) o)) (map thing_of objects.old.items) (map thing_of objects.new.items)) }
{
    let i = o.0 as usize;
    if i >= objects.len() {
        return Ok(None);
    }
    let object = &mut objects[i];
    let at = object.changes;
    let made = change(object, &e)?;
    if !made {
        return Ok(None);
    }
    Ok(Some(Item::Change(o, at, e)))
}

/// Whether its machine allows a change now.
pub fn can_change(objects: &[ObjectNow], o: ObjectNo, e: &Entry) -> bool
    ensures { result ≡ is_some (made_change (of_objects objects.now) o e.now (thing_at (of_objects objects.now) o)) }
{
    match objects.get(o.0 as usize) {
        Some(object) => object.state.enables(e),
        None => false,
    }
}

/// One change of an object.
fn change(object: &mut ObjectNow, e: &Entry) -> Result<bool, NoMemory>
    requires { object.old.changes < 2 ^ 28 }
    ensures { IfOk result (λ made. Changes made (thing_of object.old) e.now (thing_of object.new)) }
{
    let made = object.state.apply(e)?;
    if made {
        object.changes += 1;
    }
    Ok(made)
}

/// Looks where that look is shown now.
pub fn make_look(objects: &[ObjectNow], o: ObjectNo, l: Look) -> Option<Item>
    ensures { Makes result (made_look (of_objects objects.now) o l (thing_at (of_objects objects.now) o)) (map thing_of objects.now) (map thing_of objects.now) }
{
    match objects.get(o.0 as usize) {
        Some(object) => {
            let mut seen = l;
            seen.at = object.changes;
            if object.state.shows(&l) {
                Some(Item::Look(o, seen))
            } else {
                None
            }
        }
        None => None,
    }
}

/// The callback that was registered first on a stop state.
pub fn first_callback(objects: &[ObjectNow], o: ObjectNo) -> Option<u32>
    ensures { result ≡ first_registered (option_map (λ x. x.state) (thing_at (of_objects objects.now) o)) }
{
    match objects.get(o.0 as usize) {
        Some(object) => object.state.first_registered(),
        None => None,
    }
}

/// Whether the item leaves its barrier completing.
pub fn is_completing(objects: &[ObjectNow], item: &Item) -> bool
    ensures { result ≡ is_due (is_completing_now (map thing_of objects.now)) item.now }
{
    match item {
        Item::Change(o, _, _) => match objects.get(o.0 as usize) {
            Some(object) => object.state.is_completing(),
            None => false,
        },
        _ => false,
    }
}
