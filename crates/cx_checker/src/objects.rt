ghost use Rattle.std.specs.Prelude.{◌≡◌, ℕ, ◌<◌, length, map, slice_get, Some, None, option_map, IfOk};
ghost use Rattle.cx_scene.specs.Scene.{scene_of};
ghost use Rattle.cx_history.specs.declared.flaw.Cause.TheVariants as causes;
ghost use Rattle.cx_history.specs.Flaw.{placed_flaw, gap_of, bad_step_of, first_of_objects};
ghost use Rattle.cx_history.specs.Views.{recorded_of, listed};
ghost use Rattle.cx_checker.specs.Views.{placed_of, kept_in, AreHistories};

use crate::by_object::{Change, Changes, changes_by_object};
use crate::falling::flaw;
use crate::history::History;
use cx_history::{Cause, Flaw, Record};
use cx_names::NoMemory;
use cx_scene::Plan;
use std::alloc::Global;

/// The histories of these objects.
fn placed(alloc: Global, by_object: Vec<Changes>) -> Result<Vec<History>, NoMemory>
    ensures { IfOk result (λ v. v.items ≡ map kept_in by_object.items) }
{
    let mut histories = Vec::new(alloc);
    for changes in by_object {
        let history = History::of(alloc, changes)?;
        histories.push(history)?;
    }
    Ok(histories)
}

/// The histories of the plan's objects, by their numbers.
pub fn histories(alloc: Global, plan: &Plan, record: &Record) -> Result<Vec<History>, NoMemory>
    ensures { IfOk result (λ v. AreHistories (recorded_of record.now) (length (scene_of plan.now).objects) v.items) }
{
    let by_object = changes_by_object(alloc, plan.objects.len(), record.lists.as_slice())?;
    placed(alloc, by_object)
}

/// The flaw of this cause at a change.
fn flaw_at(cause: Cause, change: Change) -> Flaw
    ensures { result ≡ placed_flaw cause (placed_of change) }
{
    flaw(cause, change.thread, change.item)
}

/// The first gap in a history, by the least object.
pub fn first_gap(plan: &Plan, record: &Record, histories: &[History]) -> Option<Flaw>
    requires { AreHistories (recorded_of record.now) (length (scene_of plan.now).objects) histories.now }
    ensures { result ≡ first_of_objects (gap_of (recorded_of record.now)) 0 (scene_of plan.now).objects }
{
    for o in 0..histories.len() {
        let found = histories[o].gap();
        match found {
            Some(change) => return Some(flaw_at(Cause::Gap, change)),
            None => {}
        }
    }
    None
}

/// The first change that its machine doesn't allow, by the least object, where no history has a
/// gap.
pub fn first_bad_step(
    alloc: Global,
    plan: &Plan,
    record: &Record,
    histories: &[History],
) -> Result<Option<Flaw>, NoMemory>
    requires histories { AreHistories (recorded_of record.now) (length (scene_of plan.now).objects) histories.now }
    requires gapless { first_of_objects (gap_of (recorded_of record.now)) 0 (scene_of plan.now).objects ≡ None }
    ensures { IfOk result (λ f. f ≡ first_of_objects (bad_step_of (recorded_of record.now)) 0 (scene_of plan.now).objects) }
{
    for o in 0..histories.len() {
        let kind = plan.objects[o].kind();
        let found = histories[o].bad_step(alloc, kind)?;
        match found {
            Some(change) => return Ok(Some(flaw_at(Cause::Step, change))),
            None => {}
        }
    }
    Ok(None)
}
