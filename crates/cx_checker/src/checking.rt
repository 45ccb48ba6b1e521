ghost use Rattle.std.specs.Prelude.{◌≡◌, length, None, IfOk};
ghost use Rattle.cx_scene.specs.Scene.{scene_of};
ghost use Rattle.cx_history.specs.declared.flaw.Cause.TheVariants as causes;
ghost use Rattle.cx_history.specs.Histories.{place, owed};
ghost use Rattle.cx_history.specs.Legal.{is_shown, is_at_least};
ghost use Rattle.cx_history.specs.Flaw.{or_flaw, text_flaw_from, gap_of, bad_step_of, first_of_items, first_of_objects, first_flaw};
ghost use Rattle.cx_history.specs.Views.{recorded_of};
ghost use Rattle.cx_checker.specs.Views.{AreHistories};
ghost use Rattle.cx_checker.specs.Verdict.{flaw_in};

use crate::falling::first_fall;
use crate::history::History;
use crate::marking::all_marks;
use crate::objects::{first_bad_step, first_gap, histories};
use crate::owing::first_owed;
use crate::texts::first_stray;
use crate::verdicts::first_unshown;
use cx_history::{Cause, Flaw, Record};
use cx_names::{NoMemory, ThreadNo};
use cx_scene::Plan;
use std::alloc::Global;

/// What the checker says of a record: it is legal and follows the text of its scenario, or its
/// first flaw is at this item of this thread's list, for this cause.
#[derive(Clone, Copy)]
pub enum Verdict {
    Legal,
    Illegal {
        thread: ThreadNo,
        item: u32,
        cause: Cause,
    },
}

/// The first flaw of the causes after `step`, where there is none of those before.
fn flaw_of_items(
    alloc: Global,
    plan: &Plan,
    record: &Record,
    histories: &[History],
) -> Result<Option<Flaw>, NoMemory>
    requires histories { AreHistories (recorded_of record.now) (length (scene_of plan.now).objects) histories.now }
    requires gapless { first_of_objects (gap_of (recorded_of record.now)) 0 (scene_of plan.now).objects ≡ None }
    requires stepwise { first_of_objects (bad_step_of (recorded_of record.now)) 0 (scene_of plan.now).objects ≡ None }
    ensures { IfOk result (λ f. f ≡ or_flaw (first_of_items causes.Shown (λ t i x. is_shown (scene_of plan.now) (recorded_of record.now) x) 0 (recorded_of record.now).lists) (or_flaw (first_of_items causes.Fell (λ t i x. is_at_least (place (recorded_of record.now) t i) x) 0 (recorded_of record.now).lists) (first_of_items causes.Order (λ t i x. is_at_least (owed (recorded_of record.now) t i) x) 0 (recorded_of record.now).lists))) }
{
    let unshown = first_unshown(alloc, plan, record, histories)?;
    match unshown {
        Some(flaw) => Ok(Some(flaw)),
        None => {
            let fall = first_fall(alloc, record)?;
            match fall {
                Some(flaw) => Ok(Some(flaw)),
                None => first_owed(alloc, record),
            }
        }
    }
}

/// The first flaw of the causes after `text`.
fn flaw_of_histories(
    alloc: Global,
    plan: &Plan,
    record: &Record,
    histories: &[History],
) -> Result<Option<Flaw>, NoMemory>
    requires { AreHistories (recorded_of record.now) (length (scene_of plan.now).objects) histories.now }
    ensures { IfOk result (λ f. f ≡ or_flaw (first_of_objects (gap_of (recorded_of record.now)) 0 (scene_of plan.now).objects) (or_flaw (first_of_objects (bad_step_of (recorded_of record.now)) 0 (scene_of plan.now).objects) (or_flaw (first_of_items causes.Shown (λ t i x. is_shown (scene_of plan.now) (recorded_of record.now) x) 0 (recorded_of record.now).lists) (or_flaw (first_of_items causes.Fell (λ t i x. is_at_least (place (recorded_of record.now) t i) x) 0 (recorded_of record.now).lists) (first_of_items causes.Order (λ t i x. is_at_least (owed (recorded_of record.now) t i) x) 0 (recorded_of record.now).lists))))) }
{
    let gap = first_gap(plan, record, histories);
    match gap {
        Some(flaw) => Ok(Some(flaw)),
        None => {
            let step = first_bad_step(alloc, plan, record, histories)?;
            match step {
                Some(flaw) => Ok(Some(flaw)),
                None => flaw_of_items(alloc, plan, record, histories),
            }
        }
    }
}

/// The first flaw of cause `text`.
fn flaw_of_text(
    alloc: Global,
    plan: &Plan,
    record: &Record,
    histories: &[History],
) -> Result<Option<Flaw>, NoMemory>
    requires { AreHistories (recorded_of record.now) (length (scene_of plan.now).objects) histories.now }
    ensures { IfOk result (λ f. f ≡ text_flaw_from (scene_of plan.now) (recorded_of record.now) 0 (recorded_of record.now).lists) }
{
    let marks = all_marks(alloc, plan, record, histories)?;
    first_stray(alloc, plan, record, &marks)
}

/// The first flaw of a record.
fn flaw_of(alloc: Global, plan: &Plan, record: &Record) -> Result<Option<Flaw>, NoMemory>
    ensures { IfOk result (λ f. f ≡ first_flaw (scene_of plan.now) (recorded_of record.now)) }
{
    let histories = histories(alloc, plan, record)?;
    let stray = flaw_of_text(alloc, plan, record, &histories)?;
    match stray {
        Some(flaw) => Ok(Some(flaw)),
        None => flaw_of_histories(alloc, plan, record, &histories),
    }
}

/// Checks a record of the plan's scenario: legal where it has no flaw, and else its first flaw. It
/// fails only where memory runs out.
pub fn check_record(alloc: Global, plan: &Plan, record: &Record) -> Result<Verdict, NoMemory>
    ensures { IfOk result (λ v. flaw_in v ≡ first_flaw (scene_of plan.now) (recorded_of record.now)) }
{
    let found = flaw_of(alloc, plan, record)?;
    match found {
        Some(flaw) => Ok(Verdict::Illegal {
            thread: flaw.thread,
            item: flaw.item,
            cause: flaw.cause,
        }),
        None => Ok(Verdict::Legal),
    }
}
