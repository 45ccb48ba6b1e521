ghost use Rattle.std.specs.Prelude.{◌≡◌, ℕ, ◌<◌, ◌==◌, ◌&&◌, ◌||◌, length, IfOk};
ghost use Rattle.cx_scene.specs.Scene.{scene_of};
ghost use Rattle.cx_history.specs.Follows.{starts};
ghost use Rattle.cx_history.specs.Views.{recorded_of};
ghost use Rattle.cx_items.specs.Next.{is_due};
ghost use Rattle.cx_checker.specs.Views.{AreHistories};
ghost use Rattle.cx_checker.specs.Marks.{marked, marked_at, AreMarks, AreStarted};

use crate::falling::item_at;
use crate::history::History;
use crate::owing::list_at;
use cx_history::Record;
use cx_items::{Control, Item};
use cx_names::NoMemory;
use cx_scene::Plan;
use std::alloc::Global;

/// Which positions of an object leave a barrier completing.
#[derive(Drop)]
pub struct Marks {
    pub marks: Vec<bool>,
}

/// The marks of each object, by its number.
pub fn all_marks(
    alloc: Global,
    plan: &Plan,
    record: &Record,
    histories: &[History],
) -> Result<Vec<Marks>, NoMemory>
    requires { AreHistories (recorded_of record.now) (length (scene_of plan.now).objects) histories.now }
    ensures { IfOk result (λ v. AreMarks (scene_of plan.now) (recorded_of record.now) v.items) }
{
    let mut all = Vec::new(alloc);
    for o in 0..histories.len() {
        let kind = plan.objects[o].kind();
        let marks = histories[o].completions(alloc, kind)?;
        all.push(Marks { marks })?;
    }
    Ok(all)
}

/// Whether the position has a mark.
fn is_marked(marks: &Marks, position: u32) -> bool
    ensures { result ≡ marked marks.now.marks.items position }
{
    match marks.marks.get(position as usize) {
        Some(mark) => *mark,
        None => false,
    }
}

/// Whether a completion is due after the item.
pub fn due(marks: &[Marks], item: &Item) -> bool
    ensures { result ≡ is_due (marked_at marks.now) item.now }
{
    match item {
        Item::Change(o, position, _) => match marks.get(o.0 as usize) {
            Some(marks) => is_marked(marks, *position),
            None => false,
        },
        _ => false,
    }
}

/// A flag for each thread, which only main has.
fn main_alone(alloc: Global, threads: usize) -> Result<Vec<bool>, NoMemory>
    ensures count { IfOk result (λ v. length v.items ≡ threads) }
    ensures main { IfOk result (λ v. (t : ℕ) → t < length v.items → marked v.items t ≡ (t == 0)) }
{
    let mut flags = Vec::new(alloc);
    for t in 0..threads {
        let is_main = t == 0;
        flags.push(is_main)?;
    }
    Ok(flags)
}

/// Sets the flag of thread `u`, if it is started.
fn set_flag(flags: &mut Vec<bool>, u: u32, ok: bool)
    ensures count { length flags.new.items ≡ length flags.old.items }
    ensures set { (t : ℕ) → t < length flags.old.items → marked flags.new.items t ≡ (marked flags.old.items t || (ok && (u == t))) }
{
    let i = u as usize;
    if ok && i < flags.len() {
        flags[i] = true;
    }
}

/// Sets the flag of the thread that the item starts, if it starts one.
fn set_started(flags: &mut Vec<bool>, item: &Item)
    ensures count { length flags.new.items ≡ length flags.old.items }
    ensures set { (t : ℕ) → t < length flags.old.items → marked flags.new.items t ≡ (marked flags.old.items t || starts t item.now) }
{
    match item {
        Item::Control(Control::Start(u, ok)) => set_flag(flags, u.0, *ok),
        Item::Control(Control::Launch(u, ok)) => set_flag(flags, u.0, *ok),
        _ => {}
    }
}

/// A flag for each thread, whether it is started.
pub fn started(alloc: Global, record: &Record) -> Result<Vec<bool>, NoMemory>
    requires { 0 < length record.now.lists.items }
    ensures count { IfOk result (λ v. length v.items ≡ length record.now.lists.items) }
    ensures started { IfOk result (λ v. AreStarted (recorded_of record.now) v.items) }
{
    let mut flags = main_alone(alloc, record.lists.len())?;
    let list = list_at(record, 0);
    for i in 0..list.len() {
        let item = item_at(list, i);
        set_started(&mut flags, &item);
    }
    Ok(flags)
}
