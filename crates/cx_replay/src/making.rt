ghost use Rattle.std.specs.Prelude.{◌≡◌, [], map, is_some, IfOk};
ghost use Rattle.cx_scene.specs.Scene.{scene_of};
ghost use Rattle.cx_replay.specs.Schedule.{can_do, made, first_made};
ghost use Rattle.cx_replay.specs.Views.{thing_of, world_of, Makes, HasRoom};

use crate::acts::{
    can_begin, can_change_of, can_look_of, make_begin, make_change_of, make_look_of,
};
use crate::objects::ObjectNow;
use crate::runner::{RunnerNow, has_ended};
use cx_items::{Control, Form, Item};
use cx_names::{NoMemory, ThreadNo};
use cx_scene::Plan;

/// Whether a control can be made now: every start can, and a join once its thread has ended.
pub fn can_do(plan: &Plan, runners: &[Option<RunnerNow>], control: Control) -> bool
    ensures { result ≡ can_do (world_of (scene_of plan.now) [] runners.now) control }
{
    match control {
        Control::Start(_, begun) => begun,
        Control::Launch(_, begun) => begun,
        Control::Join(u) => match runners.get(u.0 as usize) {
            Some(runner) => has_ended(plan, runner, u),
            None => false,
        },
    }
}

/// Makes an item of this form where it can be made now.
fn make(
    plan: &Plan,
    objects: &mut Vec<ObjectNow>,
    runners: &[Option<RunnerNow>],
    t: ThreadNo,
    form: Form,
) -> Result<Option<Item>, NoMemory>
    requires { HasRoom (map thing_of objects.old.items) }
    ensures { IfOk result (λ item. Makes item (made (scene_of plan.now) (world_of (scene_of plan.now) objects.old.items runners.now) t.0 form) (map thing_of objects.old.items) (map thing_of objects.new.items)) }
{
    match form {
        Form::Change(o, op, a, b, wanted) => make_change_of(objects, t, o, op, a, b, wanted),
        Form::Look(o, op, a, b, wanted) => Ok(make_look_of(objects, t, o, op, a, b, wanted)),
        Form::Begin(o) => make_begin(plan, objects, t, o),
        Form::Does(control) => {
            let can = can_do(plan, runners, control);
            if can {
                Ok(Some(Item::Control(control)))
            } else {
                Ok(None)
            }
        }
        Form::Says(reply) => Ok(Some(Item::Said(reply))),
    }
}

/// Makes an item of the first of these forms of which one can be made now.
pub fn make_first(
    plan: &Plan,
    objects: &mut Vec<ObjectNow>,
    runners: &[Option<RunnerNow>],
    t: ThreadNo,
    forms: &[Form],
) -> Result<Option<Item>, NoMemory>
    requires { HasRoom (map thing_of objects.old.items) }
    ensures { IfOk result (λ item. Makes item (first_made (scene_of plan.now) (world_of (scene_of plan.now) objects.old.items runners.now) t.0 forms.now) (map thing_of objects.old.items) (map thing_of objects.new.items)) }
{
    for form in forms {
        let made = make(plan, objects, runners, t, *form)?;
        match made {
            Some(item) => return Ok(Some(item)),
            None => {}
        }
    }
    Ok(None)
}

/// Whether an item of this form can be made now.
fn can_make(
    plan: &Plan,
    objects: &[ObjectNow],
    runners: &[Option<RunnerNow>],
    t: ThreadNo,
    form: Form,
) -> bool
    ensures { result ≡ is_some (made (scene_of plan.now) (world_of (scene_of plan.now) objects.now runners.now) t.0 form) }
{
    match form {
        Form::Change(o, op, a, b, wanted) => can_change_of(objects, t, o, op, a, b, wanted),
        Form::Look(o, op, a, b, wanted) => can_look_of(objects, t, o, op, a, b, wanted),
        Form::Begin(o) => can_begin(plan, objects, t, o),
        Form::Does(control) => can_do(plan, runners, control),
        Form::Says(_) => true,
    }
}

/// Whether an item of one of these forms can be made now.
pub fn can_make_any(
    plan: &Plan,
    objects: &[ObjectNow],
    runners: &[Option<RunnerNow>],
    t: ThreadNo,
    forms: &[Form],
) -> bool
    ensures { result ≡ is_some (first_made (scene_of plan.now) (world_of (scene_of plan.now) objects.now runners.now) t.0 forms.now) }
{
    for form in forms {
        let can = can_make(plan, objects, runners, t, *form);
        if can {
            return true;
        }
    }
    false
}
