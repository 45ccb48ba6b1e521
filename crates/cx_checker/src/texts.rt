ghost use Rattle.std.specs.Prelude.{◌≡◌, ◌<◌, length, slice_get, is_some, Some, IfOk, option_map};
ghost use Rattle.cx_history.specs.declared.flaw.Cause.TheVariants as causes;
ghost use Rattle.std.specs.Prelude.{List as AnyList, Option as AnyOption};
ghost use Rattle.cx_scene.specs.Scene.{scene_of};
ghost use Rattle.cx_items.specs.Next.{local_at_start};
ghost use Rattle.cx_items.specs.declared.item.Item.{Item as AnyItem};
ghost use Rattle.cx_history.specs.Histories.{list_of};
ghost use Rattle.cx_history.specs.Follows.{completes, has_started};
ghost use Rattle.cx_history.specs.Flaw.{flaw, stop_at, text_flaw, text_flaw_from};
ghost use Rattle.cx_history.specs.Views.{recorded_of};
ghost use Rattle.cx_checker.specs.Marks.{marked, AreMarks, AreStarted};

use crate::by_object::number;
use crate::falling::{flaw, item_at};
use crate::marking::{Marks, due, started};
use crate::owing::list_at;
use cx_history::{Cause, Flaw, Record};
use cx_items::Local;
use cx_names::{NoMemory, ThreadNo};
use cx_scene::Plan;
use std::alloc::Global;

/// The number of the first item of thread `t` after which no continuation is allowed, or of all
/// its items where the list ends too early.
fn first_stop(
    alloc: Global,
    plan: &Plan,
    record: &Record,
    marks: &[Marks],
    t: u32,
) -> Result<Option<usize>, NoMemory>
    requires low { t < length record.now.lists.items }
    requires marks { AreMarks (scene_of plan.now) (recorded_of record.now) marks.now }
    ensures { IfOk result (λ i. i ≡ stop_at (scene_of plan.now) (completes (scene_of plan.now) (recorded_of record.now)) t 0 (local_at_start (scene_of plan.now) t) (list_of (recorded_of record.now) t)) }
{
    let list = list_at(record, t as usize);
    let mut local = Local::start(alloc, plan, ThreadNo(t))?;
    for i in 0..list.len() {
        let item = item_at(list, i);
        let completing = due(marks, &item);
        let made = local.after_item(plan, ThreadNo(t), completing, &item)?;
        if !made {
            return Ok(Some(i));
        }
    }
    let ended = local.is_ended(plan, ThreadNo(t));
    if ended {
        Ok(None)
    } else {
        Ok(Some(list.len()))
    }
}

/// The first flaw of a started thread's list.
fn flaw_in_list(
    alloc: Global,
    plan: &Plan,
    record: &Record,
    marks: &[Marks],
    t: u32,
) -> Result<Option<Flaw>, NoMemory>
    requires low { t < length record.now.lists.items }
    requires marks { AreMarks (scene_of plan.now) (recorded_of record.now) marks.now }
    ensures { IfOk result (λ f. f ≡ option_map (flaw causes.Text t) (stop_at (scene_of plan.now) (completes (scene_of plan.now) (recorded_of record.now)) t 0 (local_at_start (scene_of plan.now) t) (list_of (recorded_of record.now) t))) }
{
    let stop = first_stop(alloc, plan, record, marks, t)?;
    match stop {
        Some(i) => {
            let n = number(i)?;
            Ok(Some(flaw(Cause::Text, t, n)))
        }
        None => Ok(None),
    }
}

/// Whether thread `t` has a list.
fn has_list(record: &Record, t: u32) -> bool
    requires { t < length record.now.lists.items }
    ensures { (l : AnyOption (AnyList AnyItem)) → slice_get (recorded_of record.now).lists t ≡ Some l → result ≡ is_some l }
{
    let list = &record.lists[t as usize];
    list.started
}

/// The first flaw of thread `t`, whose flag says whether it is started.
fn flaw_of_thread(
    alloc: Global,
    plan: &Plan,
    record: &Record,
    marks: &[Marks],
    is_started: bool,
    t: u32,
) -> Result<Option<Flaw>, NoMemory>
    requires low { t < length record.now.lists.items }
    requires marks { AreMarks (scene_of plan.now) (recorded_of record.now) marks.now }
    requires started { is_started ≡ has_started (recorded_of record.now) t }
    ensures { IfOk result (λ f. (l : AnyOption (AnyList AnyItem)) → slice_get (recorded_of record.now).lists t ≡ Some l → f ≡ text_flaw (scene_of plan.now) (recorded_of record.now) t l) }
{
    let listed = has_list(record, t);
    if listed {
        if is_started {
            let found = flaw_in_list(alloc, plan, record, marks, t)?;
            return Ok(found);
        }
        return Ok(Some(flaw(Cause::Text, t, 0)));
    }
    if is_started {
        return Ok(Some(flaw(Cause::Text, t, 0)));
    }
    Ok(None)
}

/// The flag of thread `t`.
fn flag_of(flags: &[bool], t: usize) -> bool
    requires { t < length flags.now }
    ensures { result ≡ marked flags.now t }
{
    flags[t]
}

/// The first item that its thread's text doesn't allow, by the least thread.
pub fn first_stray(
    alloc: Global,
    plan: &Plan,
    record: &Record,
    marks: &[Marks],
) -> Result<Option<Flaw>, NoMemory>
    requires { AreMarks (scene_of plan.now) (recorded_of record.now) marks.now }
    ensures { IfOk result (λ f. f ≡ text_flaw_from (scene_of plan.now) (recorded_of record.now) 0 (recorded_of record.now).lists) }
{
    if record.lists.is_empty() {
        return Ok(None);
    }
    let flags = started(alloc, record)?;
    for t in 0..record.lists.len() {
        let n = number(t)?;
        let is_started = flag_of(&flags, t);
        let found = flaw_of_thread(alloc, plan, record, marks, is_started, n)?;
        match found {
            Some(flaw) => return Ok(Some(flaw)),
            None => {}
        }
    }
    Ok(None)
}
