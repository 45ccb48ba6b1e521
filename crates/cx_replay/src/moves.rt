ghost use Rattle.std.specs.Prelude.{◌≡◌, ◌<◌, true, false, map, length, slice_get, is_some, Some, IfOk};
ghost use Rattle.std.specs.Option.{option_map};
ghost use Rattle.cx_scene.specs.Scene.{scene_of};
ghost use Rattle.cx_replay.specs.Schedule.{step_of, begun_at, with_beginner};
ghost use Rattle.cx_replay.specs.Views.{thing_of, runner_of, runners_from, world_of, forms_there, reached_there, Advances, Steps, HasRoom};

use crate::making::{can_make_any, make_first};
use crate::objects::ObjectNow;
use crate::runner::RunnerNow;
use cx_items::{Control, Form, Item};
use cx_names::{NoMemory, ThreadNo};
use cx_scene::Plan;
use std::alloc::Global;

/// What thread `t` may make where it stands, into `forms` in place of what is there; nothing where
/// it wasn't started.
fn offer(
    plan: &Plan,
    runner: &Option<RunnerNow>,
    t: ThreadNo,
    forms: &mut Vec<Form>,
) -> Result<(), NoMemory>
    ensures { IfOk result (λ _. forms.new.items ≡ forms_there (scene_of plan.now) t.0 (option_map (runner_of (scene_of plan.now) t.0) runner.now)) }
{
    match runner {
        Some(runner) => runner.local.offered_now(plan, t, forms),
        None => {
            forms.clear();
            Ok(())
        }
    }
}

/// The thread has made this item, which it may make where it stands, and the reply that is due then.
fn advance(
    plan: &Plan,
    objects: &[ObjectNow],
    runner: &mut Option<RunnerNow>,
    t: ThreadNo,
    item: Item,
) -> Result<(), NoMemory>
    requires { is_some (reached_there (scene_of plan.now) t.0 (option_map (runner_of (scene_of plan.now) t.0) runner.old) item) ≡ true }
    ensures { IfOk result (λ _. Advances (scene_of plan.now) (map thing_of objects.now) t.0 item (option_map (runner_of (scene_of plan.now) t.0) runner.old) (option_map (runner_of (scene_of plan.now) t.0) runner.new)) }
{
    match runner {
        Some(runner) => runner.make(plan, objects, t, item),
        None => Ok(()),
    }
}

/// Thread `u` begins, unless it has begun before.
fn begin_at(
    alloc: Global,
    plan: &Plan,
    runners: &mut Vec<Option<RunnerNow>>,
    u: ThreadNo,
) -> Result<(), NoMemory>
    ensures begun { IfOk result (λ _. runners_from (scene_of plan.now) 0 runners.new.items ≡ begun_at (scene_of plan.now) u.0 (runners_from (scene_of plan.now) 0 runners.old.items)) }
    ensures same_number { length runners.new.items ≡ length runners.old.items }
{
    let i = u.0 as usize;
    if i >= runners.len() {
        return Ok(());
    }
    let begun = runners[i].is_some();
    if begun {
        return Ok(());
    }
    let runner = RunnerNow::begin(alloc, plan, u)?;
    runners[i] = Some(runner);
    Ok(())
}

/// The thread that this item starts or launches begins, unless it has begun before.
fn begin_started(
    alloc: Global,
    plan: &Plan,
    runners: &mut Vec<Option<RunnerNow>>,
    item: Item,
) -> Result<(), NoMemory>
    ensures begun { IfOk result (λ _. runners_from (scene_of plan.now) 0 runners.new.items ≡ with_beginner (scene_of plan.now) item (runners_from (scene_of plan.now) 0 runners.old.items)) }
    ensures same_number { length runners.new.items ≡ length runners.old.items }
{
    match item {
        Item::Control(Control::Start(u, true)) => begin_at(alloc, plan, runners, u),
        Item::Control(Control::Launch(u, true)) => begin_at(alloc, plan, runners, u),
        _ => Ok(()),
    }
}

/// The next step of thread `t`, where it is enabled; `forms` is room for what it may make.
pub fn step(
    alloc: Global,
    plan: &Plan,
    objects: &mut Vec<ObjectNow>,
    runners: &mut Vec<Option<RunnerNow>>,
    forms: &mut Vec<Form>,
    t: ThreadNo,
) -> Result<bool, NoMemory>
    requires number { t.0 < length runners.old.items }
    requires room { HasRoom (map thing_of objects.old.items) }
    ensures made { IfOk result (λ made. Steps made (step_of (scene_of plan.now) (world_of (scene_of plan.now) objects.old.items runners.old.items) t.0) (world_of (scene_of plan.now) objects.old.items runners.old.items) (world_of (scene_of plan.now) objects.new.items runners.new.items)) }
    ensures same_number { length runners.new.items ≡ length runners.old.items }
    ensures tried { IfOk result (λ made. made ≡ false → (r : _) → slice_get runners.old.items t.0 ≡ Some r → (slice_get runners.new.items t.0 ≡ Some r) × (forms.new.items ≡ forms_there (scene_of plan.now) t.0 (option_map (runner_of (scene_of plan.now) t.0) r))) }
{
    let i = t.0 as usize;
    offer(plan, &runners[i], t, forms)?;
    let made = make_first(plan, objects, runners, t, forms)?;
    match made {
        Some(item) => {
            advance(plan, objects, &mut runners[i], t, item)?;
            begin_started(alloc, plan, runners, item)?;
            Ok(true)
        }
        None => Ok(false),
    }
}

/// Whether thread `t` is enabled; `forms` is room for what it may make.
pub fn is_enabled(
    plan: &Plan,
    objects: &[ObjectNow],
    runners: &[Option<RunnerNow>],
    forms: &mut Vec<Form>,
    t: ThreadNo,
) -> Result<bool, NoMemory>
    requires { t.0 < length runners.now }
    ensures enabled { IfOk result (λ enabled. enabled ≡ is_some (step_of (scene_of plan.now) (world_of (scene_of plan.now) objects.now runners.now) t.0)) }
    ensures tried { IfOk result (λ _. (r : _) → slice_get runners.now t.0 ≡ Some r → forms.new.items ≡ forms_there (scene_of plan.now) t.0 (option_map (runner_of (scene_of plan.now) t.0) r)) }
{
    let runner = &runners[t.0 as usize];
    offer(plan, runner, t, forms)?;
    Ok(can_make_any(plan, objects, runners, t, forms))
}
