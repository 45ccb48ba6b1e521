ghost use Rattle.std.specs.Prelude.{◌≡◌, ◌<◌, ◌==◌, ◌%◌, ◌++◌, ◌∷◌, [], if◌then◌else◌, true, false, is_some, Some, slice_get, length, map, IfOk};
ghost use Rattle.cx_scene.specs.Scene.{scene_of};
ghost use Rattle.cx_replay.specs.Schedule.{steps, step_of, turn};
ghost use Rattle.cx_replay.specs.SplitMix.{next_seed, word};
ghost use Rattle.cx_replay.specs.declared.knowing.Known.TheVariants.{Nothing};
ghost use Rattle.cx_replay.specs.Knowing.{IsLatest, IsKnown, Knows};
ghost use Rattle.cx_replay.specs.Views.{thing_of, world_of, Steps, AreEnabled, Draws, HasRoom};

use crate::draws::draw;
use crate::knowing::{Known, Latest, is_free_by, note, note_tried};
use crate::moves::{is_enabled, step};
use crate::objects::ObjectNow;
use crate::runner::RunnerNow;
use cx_items::Form;
use cx_names::{NoMemory, ThreadNo};
use cx_scene::Plan;
use rand_xoshiro::SplitMix64;
use std::alloc::Global;

/// The thread of this number; what is declared past 32 bits doesn't fit any memory.
pub fn thread(i: usize) -> Result<ThreadNo, NoMemory>
    ensures { IfOk result (λ t. t.0 ≡ i) }
{
    Ok(ThreadNo(u32::try_from(i).ok().ok_or(NoMemory)?))
}

/// The next step of thread `t`, unless it is known not to be enabled; whether it was made. `known` is what is
/// known of the thread.
fn try_step(
    alloc: Global,
    plan: &Plan,
    objects: &mut Vec<ObjectNow>,
    runners: &mut Vec<Option<RunnerNow>>,
    forms: &mut Vec<Form>,
    known: &mut Known,
    t: ThreadNo,
) -> Result<bool, NoMemory>
    requires number { t.0 < length runners.old.items }
    requires room { HasRoom (map thing_of objects.old.items) }
    requires known { (r : _) → slice_get (world_of (scene_of plan.now) objects.old.items runners.old.items).runners t.0 ≡ Some r → IsKnown (scene_of plan.now) (world_of (scene_of plan.now) objects.old.items runners.old.items) t.0 r known.old }
    ensures made { IfOk result (λ made. Steps made (step_of (scene_of plan.now) (world_of (scene_of plan.now) objects.old.items runners.old.items) t.0) (world_of (scene_of plan.now) objects.old.items runners.old.items) (world_of (scene_of plan.now) objects.new.items runners.new.items)) }
    ensures same_number { length runners.new.items ≡ length runners.old.items }
    ensures known { IfOk result (λ made. (made ≡ true → known.new ≡ Nothing) × (made ≡ false → (r : _) → slice_get (world_of (scene_of plan.now) objects.old.items runners.old.items).runners t.0 ≡ Some r → IsKnown (scene_of plan.now) (world_of (scene_of plan.now) objects.old.items runners.old.items) t.0 r known.new)) }
{
    match known.answer(plan, objects, runners) {
        Some(false) => return Ok(false),
        _ => {}
    }
    let made = step(alloc, plan, objects, runners, forms, t)?;
    let runner = &runners[t.0 as usize];
    *known = note_tried(objects, runner, forms, made);
    Ok(made)
}

/// The first of the enabled threads makes its next step; whether there is one. `known` is what is known of
/// each thread.
pub fn turn(
    alloc: Global,
    plan: &Plan,
    objects: &mut Vec<ObjectNow>,
    runners: &mut Vec<Option<RunnerNow>>,
    forms: &mut Vec<Form>,
    known: &mut Vec<Known>,
) -> Result<bool, NoMemory>
    requires room { HasRoom (map thing_of objects.old.items) }
    requires known { Knows (scene_of plan.now) (world_of (scene_of plan.now) objects.old.items runners.old.items) known.old.items }
    ensures made { IfOk result (λ made. Steps made (slice_get (steps (scene_of plan.now) (world_of (scene_of plan.now) objects.old.items runners.old.items)) 0) (world_of (scene_of plan.now) objects.old.items runners.old.items) (world_of (scene_of plan.now) objects.new.items runners.new.items)) }
    ensures known { IfOk result (λ _. Knows (scene_of plan.now) (world_of (scene_of plan.now) objects.new.items runners.new.items) known.new.items) }
{
    for i in 0..runners.len() {
        let t = thread(i)?;
        let made = try_step(alloc, plan, objects, runners, forms, &mut known[i], t)?;
        if made {
            return Ok(true);
        }
    }
    Ok(false)
}

/// Whether thread `t` is enabled. `known` is what is known of the thread, and `latest` what was found of the
/// semaphore that was tried last.
fn find_out(
    plan: &Plan,
    objects: &[ObjectNow],
    runners: &[Option<RunnerNow>],
    forms: &mut Vec<Form>,
    known: &mut Known,
    latest: &mut Option<Latest>,
    t: ThreadNo,
) -> Result<bool, NoMemory>
    requires number { t.0 < length runners.now }
    requires latest { IsLatest (map thing_of objects.now) latest.old }
    requires known { (r : _) → slice_get (world_of (scene_of plan.now) objects.now runners.now).runners t.0 ≡ Some r → IsKnown (scene_of plan.now) (world_of (scene_of plan.now) objects.now runners.now) t.0 r known.old }
    ensures latest { IsLatest (map thing_of objects.now) latest.new }
    ensures enabled { IfOk result (λ enabled. enabled ≡ is_some (step_of (scene_of plan.now) (world_of (scene_of plan.now) objects.now runners.now) t.0)) }
    ensures known { IfOk result (λ _. (r : _) → slice_get (world_of (scene_of plan.now) objects.now runners.now).runners t.0 ≡ Some r → IsKnown (scene_of plan.now) (world_of (scene_of plan.now) objects.now runners.now) t.0 r known.new) }
{
    match *known {
        Known::Acquires(o) => return Ok(is_free_by(objects, o, latest)),
        _ => {}
    }
    match known.answer(plan, objects, runners) {
        Some(enabled) => return Ok(enabled),
        None => {}
    }
    let enabled = is_enabled(plan, objects, runners, forms, t)?;
    let runner = &runners[t.0 as usize];
    *known = note(objects, runner, forms, enabled);
    Ok(enabled)
}

/// Puts thread `t` after the others, where it is enabled.
fn push_enabled(
    plan: &Plan,
    objects: &[ObjectNow],
    runners: &[Option<RunnerNow>],
    forms: &mut Vec<Form>,
    known: &mut Known,
    latest: &mut Option<Latest>,
    t: ThreadNo,
    enabled: &mut Vec<ThreadNo>,
) -> Result<(), NoMemory>
    requires number { t.0 < length runners.now }
    requires latest { IsLatest (map thing_of objects.now) latest.old }
    requires known { (r : _) → slice_get (world_of (scene_of plan.now) objects.now runners.now).runners t.0 ≡ Some r → IsKnown (scene_of plan.now) (world_of (scene_of plan.now) objects.now runners.now) t.0 r known.old }
    ensures latest { IsLatest (map thing_of objects.now) latest.new }
    ensures pushed { IfOk result (λ _. enabled.new.items ≡ enabled.old.items ++ (if is_some (step_of (scene_of plan.now) (world_of (scene_of plan.now) objects.now runners.now) t.0) then t ∷ [] else [])) }
    ensures known { IfOk result (λ _. (r : _) → slice_get (world_of (scene_of plan.now) objects.now runners.now).runners t.0 ≡ Some r → IsKnown (scene_of plan.now) (world_of (scene_of plan.now) objects.now runners.now) t.0 r known.new) }
{
    let is = find_out(plan, objects, runners, forms, known, latest, t)?;
    if is {
        enabled.push(t)?;
    }
    Ok(())
}

/// The enabled threads, into `enabled` in place of what is there. `known` is what is known of each thread.
fn put_enabled(
    plan: &Plan,
    objects: &[ObjectNow],
    runners: &[Option<RunnerNow>],
    forms: &mut Vec<Form>,
    known: &mut Vec<Known>,
    enabled: &mut Vec<ThreadNo>,
) -> Result<(), NoMemory>
    requires { Knows (scene_of plan.now) (world_of (scene_of plan.now) objects.now runners.now) known.old.items }
    ensures enabled { IfOk result (λ _. AreEnabled (scene_of plan.now) (world_of (scene_of plan.now) objects.now runners.now) enabled.new.items) }
    ensures known { IfOk result (λ _. Knows (scene_of plan.now) (world_of (scene_of plan.now) objects.now runners.now) known.new.items) }
{
    enabled.clear();
    let count = runners.len();
    let mut latest = None;
    for i in 0..count {
        let t = thread(i)?;
        push_enabled(
            plan,
            objects,
            runners,
            forms,
            &mut known[i],
            &mut latest,
            t,
            enabled,
        )?;
    }
    Ok(())
}

/// Which of so many enabled threads: a word is drawn where there is more than one.
fn choose(generator: &mut SplitMix64, count: usize) -> usize
    requires { 0 < count }
    ensures place { result ≡ (if count == 1 then 0 else word (next_seed generator.old) % count) }
    ensures state { generator.new ≡ (if count == 1 then generator.old else next_seed generator.old) }
    ensures low { result < count }
{
    if count == 1 {
        return 0;
    }
    let word = draw(generator);
    (word % count as u64) as usize
}

/// One of the enabled threads makes its next step: the one that is drawn, where there is more than
/// one; whether there is one.
pub fn turn_drawn(
    alloc: Global,
    plan: &Plan,
    objects: &mut Vec<ObjectNow>,
    runners: &mut Vec<Option<RunnerNow>>,
    forms: &mut Vec<Form>,
    known: &mut Vec<Known>,
    enabled: &mut Vec<ThreadNo>,
    generator: &mut SplitMix64,
) -> Result<bool, NoMemory>
    requires room { HasRoom (map thing_of objects.old.items) }
    requires known { Knows (scene_of plan.now) (world_of (scene_of plan.now) objects.old.items runners.old.items) known.old.items }
    ensures known { IfOk result (λ _. Knows (scene_of plan.now) (world_of (scene_of plan.now) objects.new.items runners.new.items) known.new.items) }
    ensures made { IfOk result (λ made. Draws made (turn (scene_of plan.now) (record { world = world_of (scene_of plan.now) objects.old.items runners.old.items; seed = Some generator.old })) (world_of (scene_of plan.now) objects.old.items runners.old.items) (world_of (scene_of plan.now) objects.new.items runners.new.items) generator.new) }
{
    put_enabled(plan, objects, runners, forms, known, enabled)?;
    let count = enabled.len();
    if count == 0 {
        return Ok(false);
    }
    let i = choose(generator, count);
    let t = enabled[i];
    let made = step(alloc, plan, objects, runners, forms, t)?;
    known[t.0 as usize] = Known::Nothing;
    Ok(made)
}
