ghost use Rattle.std.specs.Prelude.{◌≡◌, ℕ, ◌<◌, ◌++◌, [], length, map, drop, Some, None, IfOk};
ghost use Rattle.std.specs.Prelude.{List as AnyList};
ghost use Rattle.cx_machine.specs.declared.kind.Look.{Look as AnyLook};
ghost use Rattle.cx_scene.specs.Scene.{scene_of};
ghost use Rattle.cx_items.specs.declared.item.Item.TheVariants as item_variants;
ghost use Rattle.cx_history.specs.declared.flaw.Cause.TheVariants as causes;
ghost use Rattle.cx_history.specs.Legal.{is_shown};
ghost use Rattle.cx_history.specs.Flaw.{gap_of, bad_step_of, first_in, first_of_items, first_of_objects};
ghost use Rattle.cx_history.specs.Histories.{list_of};
ghost use Rattle.cx_history.specs.Views.{recorded_of, listed};
ghost use Rattle.cx_checker.specs.Views.{AreHistories};
ghost use Rattle.cx_checker.specs.Looks.{look_on, looks_in, looks_from, looks_at, left_at, left_in, told, Tell, TakesNext};

use crate::by_object::number;
use crate::falling::{flaw, item_at};
use crate::history::History;
use crate::looks::{Looks, looks_by_object};
use crate::owing::list_at;
use cx_history::{Cause, Flaw, Record};
use cx_items::Item;
use cx_machine::Look;
use cx_names::{NoMemory, ObjectNo};
use cx_scene::Plan;
use std::alloc::Global;

/// The verdicts on the looks at an object, and how many of them are used.
#[derive(Drop)]
pub struct Verdicts {
    pub verdicts: Vec<bool>,
    pub next: usize,
}

impl Verdicts {
    /// The next verdict, false where none is left.
    fn take(&mut self) -> bool
        ensures { TakesNext (left_in (Some self.old)) result (left_in (Some self.new)) }
    {
        if self.next < self.verdicts.len() {
            let verdict = self.verdicts[self.next];
            self.next += 1;
            verdict
        } else {
            false
        }
    }
}

/// The verdicts on the looks at each object.
fn all_verdicts(
    alloc: Global,
    plan: &Plan,
    record: &Record,
    histories: &[History],
    looks: &[Looks],
) -> Result<Vec<Verdicts>, NoMemory>
    requires histories { AreHistories (recorded_of record.now) (length (scene_of plan.now).objects) histories.now }
    requires gapless { first_of_objects (gap_of (recorded_of record.now)) 0 (scene_of plan.now).objects ≡ None }
    requires stepwise { first_of_objects (bad_step_of (recorded_of record.now)) 0 (scene_of plan.now).objects ≡ None }
    requires looks { length looks.now ≡ length (scene_of plan.now).objects }
    requires each { (q : ℕ) → q < length (scene_of plan.now).objects → looks_at looks.now q ≡ looks_from q (recorded_of record.now).lists }
    ensures count { IfOk result (λ v. length v.items ≡ length (scene_of plan.now).objects) }
    ensures tell { IfOk result (λ v. Tell (scene_of plan.now) (recorded_of record.now) v.items (λ q. looks_from q (recorded_of record.now).lists)) }
{
    let mut all = Vec::new(alloc);
    for o in 0..histories.len() {
        let kind = plan.objects[o].kind();
        let seen = looks_of(looks, o);
        let verdicts = histories[o].verdicts_on(alloc, kind, seen)?;
        all.push(Verdicts { verdicts, next: 0 })?;
    }
    Ok(all)
}

/// The looks at an object.
fn looks_of(looks: &[Looks], o: usize) -> &[Look]
    requires { o < length looks.now }
    ensures { result.now ≡ looks_at looks.now o }
{
    looks[o].looks.as_slice()
}

/// Whether this look at object `o` is shown; the verdict on it is used up.
fn tells(plan: &Plan, record: &Record, all: &mut Vec<Verdicts>, o: ObjectNo, look: Look) -> bool
    requires { length all.old.items ≡ length (scene_of plan.now).objects }
    ensures count { length all.new.items ≡ length all.old.items }
    ensures good { (rest : ℕ → AnyList AnyLook) → Tell (scene_of plan.now) (recorded_of record.now) all.old.items (λ q. look_on q (item_variants.Look o look) ++ rest q) → result ≡ is_shown (scene_of plan.now) (recorded_of record.now) (item_variants.Look o look) }
    ensures rest { (rest : ℕ → AnyList AnyLook) → Tell (scene_of plan.now) (recorded_of record.now) all.old.items (λ q. look_on q (item_variants.Look o look) ++ rest q) → Tell (scene_of plan.now) (recorded_of record.now) all.new.items rest }
{
    let i = o.0 as usize;
    if i >= all.len() {
        return false;
    }
    let verdict = all[i].take();
    verdict
}

/// Whether the item is no look, or a look that is shown; the verdict on it is used up.
fn is_good(plan: &Plan, record: &Record, all: &mut Vec<Verdicts>, item: &Item) -> bool
    requires { length all.old.items ≡ length (scene_of plan.now).objects }
    ensures count { length all.new.items ≡ length all.old.items }
    ensures good { (rest : ℕ → AnyList AnyLook) → Tell (scene_of plan.now) (recorded_of record.now) all.old.items (λ q. look_on q item.now ++ rest q) → result ≡ is_shown (scene_of plan.now) (recorded_of record.now) item.now }
    ensures rest { (rest : ℕ → AnyList AnyLook) → Tell (scene_of plan.now) (recorded_of record.now) all.old.items (λ q. look_on q item.now ++ rest q) → Tell (scene_of plan.now) (recorded_of record.now) all.new.items rest }
{
    match item {
        Item::Look(o, look) => tells(plan, record, all, *o, *look),
        _ => true,
    }
}

/// The first look of a list of thread `t` that isn't shown.
fn first_unshown_in(
    plan: &Plan,
    record: &Record,
    all: &mut Vec<Verdicts>,
    t: u32,
    list: &[Item],
) -> Result<Option<Flaw>, NoMemory>
    requires { length all.old.items ≡ length (scene_of plan.now).objects }
    ensures count { IfOk result (λ _. length all.new.items ≡ length all.old.items) }
    ensures first { IfOk result (λ f. (rest : ℕ → AnyList AnyLook) → Tell (scene_of plan.now) (recorded_of record.now) all.old.items (λ q. looks_in q list.now ++ rest q) → f ≡ first_in causes.Shown (λ u i x. is_shown (scene_of plan.now) (recorded_of record.now) x) t 0 list.now) }
    ensures rest { IfOk result (λ f. (rest : ℕ → AnyList AnyLook) → Tell (scene_of plan.now) (recorded_of record.now) all.old.items (λ q. looks_in q list.now ++ rest q) → f ≡ None → Tell (scene_of plan.now) (recorded_of record.now) all.new.items rest) }
{
    for i in 0..list.len() {
        let item = item_at(list, i);
        let good = is_good(plan, record, all, &item);
        if !good {
            let n = number(i)?;
            return Ok(Some(flaw(Cause::Shown, t, n)));
        }
    }
    Ok(None)
}

/// The first look that isn't shown, by the least thread, where the histories have no gap and each
/// of their changes is allowed.
pub fn first_unshown(
    alloc: Global,
    plan: &Plan,
    record: &Record,
    histories: &[History],
) -> Result<Option<Flaw>, NoMemory>
    requires histories { AreHistories (recorded_of record.now) (length (scene_of plan.now).objects) histories.now }
    requires gapless { first_of_objects (gap_of (recorded_of record.now)) 0 (scene_of plan.now).objects ≡ None }
    requires stepwise { first_of_objects (bad_step_of (recorded_of record.now)) 0 (scene_of plan.now).objects ≡ None }
    ensures { IfOk result (λ f. f ≡ first_of_items causes.Shown (λ t i x. is_shown (scene_of plan.now) (recorded_of record.now) x) 0 (recorded_of record.now).lists) }
{
    let looks = looks_by_object(alloc, plan.objects.len(), record.lists.as_slice())?;
    let mut all = all_verdicts(alloc, plan, record, histories, &looks)?;
    for t in 0..record.lists.len() {
        let n = number(t)?;
        let list = list_at(record, t);
        let found = first_unshown_in(plan, record, &mut all, n, list)?;
        match found {
            Some(flaw) => return Ok(Some(flaw)),
            None => {}
        }
    }
    Ok(None)
}
