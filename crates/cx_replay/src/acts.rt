ghost use Rattle.std.specs.Prelude.{◌≡◌, map, pos, is_some, IfOk};
ghost use Rattle.cx_scene.specs.Scene.{scene_of};
ghost use Rattle.cx_items.specs.declared.form.Form.TheVariants as forms;
ghost use Rattle.cx_items.specs.Form.{is_registered_on};
ghost use Rattle.cx_replay.specs.Schedule.{made, replied_change, replied_look, reply_of};
ghost use Rattle.cx_replay.specs.Views.{thing_of, of_objects, Makes, HasRoom};

use crate::objects::{ObjectNow, can_change, first_callback, make_change, make_look, reply_of};
use cx_items::{Item, Wanted};
use cx_machine::{Entry, Look, Op};
use cx_names::{NoMemory, ObjectNo, Reply, ThreadNo};
use cx_scene::Plan;

/// Whether the text registers the callback of this ID on this stop state.
fn is_registered_on(plan: &Plan, o: ObjectNo, id: u32) -> bool
    ensures { result ≡ is_registered_on (scene_of plan.now) o (pos id) }
{
    match plan.registration(id as u64) {
        Some(registered) => match plan.stop_of(registered) {
            Some(stop) => o.0 == stop.0,
            None => false,
        },
        None => false,
    }
}

/// Makes a change of this form, with the reply that is wanted.
pub fn make_change_of(
    objects: &mut Vec<ObjectNow>,
    t: ThreadNo,
    o: ObjectNo,
    op: Op,
    a: i64,
    b: i64,
    wanted: Wanted,
) -> Result<Option<Item>, NoMemory>
    requires { HasRoom (map thing_of objects.old.items) }
    ensures { IfOk result (λ item. Makes item (replied_change (of_objects objects.old.items) t.0 o op a b (reply_of (of_objects objects.old.items) t.0 o op a b wanted)) (map thing_of objects.old.items) (map thing_of objects.new.items)) }
{
    match reply_of(objects, t, o, op, a, b, wanted) {
        Some(reply) => make_change(
            objects,
            o,
            Entry {
                by: t,
                op,
                a,
                b,
                reply,
            },
        ),
        None => Ok(None),
    }
}

/// Makes a look of this form, with the reply that is wanted.
pub fn make_look_of(
    objects: &[ObjectNow],
    t: ThreadNo,
    o: ObjectNo,
    op: Op,
    a: i64,
    b: i64,
    wanted: Wanted,
) -> Option<Item>
    ensures { Makes result (replied_look (of_objects objects.now) t.0 o op a b (reply_of (of_objects objects.now) t.0 o op a b wanted)) (map thing_of objects.now) (map thing_of objects.now) }
{
    match reply_of(objects, t, o, op, a, b, wanted) {
        Some(reply) => make_look(
            objects,
            o,
            Look {
                by: t,
                op,
                a,
                b,
                reply,
                at: 0,
            },
        ),
        None => None,
    }
}

/// Begins the callback that was registered first, where the text registers it here.
pub fn make_begin(
    plan: &Plan,
    objects: &mut Vec<ObjectNow>,
    t: ThreadNo,
    o: ObjectNo,
) -> Result<Option<Item>, NoMemory>
    requires { HasRoom (map thing_of objects.old.items) }
    ensures { IfOk result (λ item. Makes item (made (scene_of plan.now) (of_objects objects.old.items) t.0 (forms.Begin o)) (map thing_of objects.old.items) (map thing_of objects.new.items)) }
{
    let Some(id) = first_callback(objects, o) else {
        return Ok(None);
    };
    if !is_registered_on(plan, o, id) {
        return Ok(None);
    }
    let begin = Entry {
        by: t,
        op: Op::Begin,
        a: id as i64,
        b: 0,
        reply: Reply::Ok,
    };
    make_change(objects, o, begin)
}

/// Whether a change of this form can be made now.
pub fn can_change_of(
    objects: &[ObjectNow],
    t: ThreadNo,
    o: ObjectNo,
    op: Op,
    a: i64,
    b: i64,
    wanted: Wanted,
) -> bool
    ensures { result ≡ is_some (replied_change (of_objects objects.now) t.0 o op a b (reply_of (of_objects objects.now) t.0 o op a b wanted)) }
{
    match reply_of(objects, t, o, op, a, b, wanted) {
        Some(reply) => {
            let e = Entry {
                by: t,
                op,
                a,
                b,
                reply,
            };
            can_change(objects, o, &e)
        }
        None => false,
    }
}

/// Whether a look of this form can be made now.
pub fn can_look_of(
    objects: &[ObjectNow],
    t: ThreadNo,
    o: ObjectNo,
    op: Op,
    a: i64,
    b: i64,
    wanted: Wanted,
) -> bool
    ensures { result ≡ is_some (replied_look (of_objects objects.now) t.0 o op a b (reply_of (of_objects objects.now) t.0 o op a b wanted)) }
{
    let look = make_look_of(objects, t, o, op, a, b, wanted);
    look.is_some()
}

/// Whether the callback that was registered first can begin now.
pub fn can_begin(plan: &Plan, objects: &[ObjectNow], t: ThreadNo, o: ObjectNo) -> bool
    ensures { result ≡ is_some (made (scene_of plan.now) (of_objects objects.now) t.0 (forms.Begin o)) }
{
    let Some(id) = first_callback(objects, o) else {
        return false;
    };
    if !is_registered_on(plan, o, id) {
        return false;
    }
    let begin = Entry {
        by: t,
        op: Op::Begin,
        a: id as i64,
        b: 0,
        reply: Reply::Ok,
    };
    can_change(objects, o, &begin)
}
