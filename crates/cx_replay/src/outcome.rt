ghost use Rattle.std.specs.Prelude.{◌≡◌, ◌++◌, ◌∷◌, [], map, replicate, Some, None, if◌then◌else◌, IfOk};
ghost use Rattle.cx_scene.specs.Scene.{scene_of};
ghost use Rattle.cx_history.specs.Views.{listed, number_of};
ghost use Rattle.std.specs.Option.{option_map};
ghost use Rattle.cx_replay.specs.declared.knowing.Known.TheVariants.{Nothing};
ghost use Rattle.cx_replay.specs.Schedule.{Replays, IsLight, opening_runners, is_live, live_from};
ghost use Rattle.cx_replay.specs.Views.{runner_of, runners_from, kept_list, replayed_of, replayed_in, IsLiveWhereStuck};

use crate::draws::generator;
use crate::knowing::Known;
use crate::objects::open;
use crate::runner::RunnerNow;
use crate::turning::{thread, turn, turn_drawn};
use cx_history::{Items, List, Record, Threads};
use cx_names::{NoMemory, ThreadNo};
use cx_scene::Plan;
use std::alloc::Global;

/// More turns than a schedule has.
const TURNS: u32 = 268_435_456;

/// How a replay ends.
#[derive(Drop)]
pub enum Replayed {
    /// Every thread that was started has ended.
    Ended(Record),
    /// No thread is enabled, and these are still live.
    Stuck(Record, Threads),
}

/// Main at its start, and the others, which aren't started.
fn opening_runners(alloc: Global, plan: &Plan) -> Result<Vec<Option<RunnerNow>>, NoMemory>
    ensures { IfOk result (λ runners. runners_from (scene_of plan.now) 0 runners.items ≡ opening_runners (scene_of plan.now) (scene_of plan.now).threads) }
{
    let mut runners = Vec::new(alloc);
    let count = plan.threads.len();
    if count == 0 {
        return Ok(runners);
    }
    let main = RunnerNow::begin(alloc, plan, ThreadNo(0))?;
    runners.push(Some(main))?;
    for _other in 0..count - 1 {
        runners.push(None)?;
    }
    Ok(runners)
}

/// Nothing known of each of so many threads.
fn unknown(alloc: Global, count: usize) -> Result<Vec<Known>, NoMemory>
    ensures { IfOk result (λ known. known.items ≡ replicate count Nothing) }
{
    Ok(vec![in alloc; Known::Nothing; count]?)
}

/// The threads that have begun and not ended.
fn live(alloc: Global, plan: &Plan, runners: &[Option<RunnerNow>]) -> Result<Threads, NoMemory>
    ensures { IfOk result (λ live. map number_of live.threads.items ≡ live_from 0 (runners_from (scene_of plan.now) 0 runners.now)) }
{
    let mut threads = Vec::new(alloc);
    for i in 0..runners.len() {
        let t = thread(i)?;
        push_live(plan, &runners[i], t, &mut threads)?;
    }
    Ok(Threads { threads })
}

/// What each thread has done.
fn lists(alloc: Global, runners: Vec<Option<RunnerNow>>) -> Result<Vec<List>, NoMemory>
    ensures { IfOk result (λ lists. map listed lists.items ≡ map kept_list runners.items) }
{
    let mut lists = Vec::new(alloc);
    for runner in runners {
        let list = list_of(alloc, runner);
        lists.push(list)?;
    }
    Ok(lists)
}

/// Whether the thread has begun and not ended.
fn is_live(plan: &Plan, runner: &Option<RunnerNow>, t: ThreadNo) -> bool
    ensures { result ≡ is_live (option_map (runner_of (scene_of plan.now) t.0) runner.now) }
{
    match runner {
        Some(runner) => !runner.local.is_ended(plan, t),
        None => false,
    }
}

/// Puts the thread after the others, where it has begun and not ended.
fn push_live(
    plan: &Plan,
    runner: &Option<RunnerNow>,
    t: ThreadNo,
    threads: &mut Vec<ThreadNo>,
) -> Result<(), NoMemory>
    ensures { IfOk result (λ _. threads.new.items ≡ threads.old.items ++ (if is_live (option_map (runner_of (scene_of plan.now) t.0) runner.now) then t ∷ [] else [])) }
{
    if is_live(plan, runner, t) {
        threads.push(t)?;
    }
    Ok(())
}

/// What the thread has done.
fn list_of(alloc: Global, runner: Option<RunnerNow>) -> List
    ensures { listed result ≡ kept_list runner }
{
    match runner {
        Some(runner) => List {
            started: true,
            items: Items { items: runner.done },
        },
        None => List {
            started: false,
            items: Items {
                items: Vec::new(alloc),
            },
        },
    }
}

/// The record, and whether the replay is stuck.
fn end(alloc: Global, plan: &Plan, runners: Vec<Option<RunnerNow>>) -> Result<Replayed, NoMemory>
    ensures outcome { IfOk result (λ r. replayed_of r ≡ replayed_in (scene_of plan.now) (runners_from (scene_of plan.now) 0 runners.items)) }
    ensures stuck { IfOk result IsLiveWhereStuck }
{
    let live = live(alloc, plan, &runners)?;
    let lists = lists(alloc, runners)?;
    let version = plan.version;
    let record = Record { version, lists };
    if live.threads.is_empty() {
        Ok(Replayed::Ended(record))
    } else {
        Ok(Replayed::Stuck(record, live))
    }
}

/// The replay in which the enabled thread of the least number makes the next step.
fn replay_first(alloc: Global, plan: &Plan) -> Result<Replayed, NoMemory>
    requires { IsLight (scene_of plan.now) }
    ensures outcome { IfOk result (λ r. Replays (scene_of plan.now) None (replayed_of r)) }
    ensures stuck { IfOk result IsLiveWhereStuck }
{
    let mut objects = open(alloc, &plan.objects)?;
    let mut runners = opening_runners(alloc, plan)?;
    let mut forms = Vec::new(alloc);
    let mut known = unknown(alloc, runners.len())?;
    for _count in 0..TURNS {
        let made = turn(
            alloc,
            plan,
            &mut objects,
            &mut runners,
            &mut forms,
            &mut known,
        )?;
        if !made {
            let outcome = end(alloc, plan, runners)?;
            return Ok(outcome);
        }
    }
    unreachable!()
}

/// The replay in which a word is drawn where more than one thread is enabled.
fn replay_drawn(alloc: Global, plan: &Plan, seed: u64) -> Result<Replayed, NoMemory>
    requires { IsLight (scene_of plan.now) }
    ensures outcome { IfOk result (λ r. Replays (scene_of plan.now) (Some seed) (replayed_of r)) }
    ensures stuck { IfOk result IsLiveWhereStuck }
{
    let mut generator = generator(seed);
    let mut objects = open(alloc, &plan.objects)?;
    let mut runners = opening_runners(alloc, plan)?;
    let mut forms = Vec::new(alloc);
    let mut known = unknown(alloc, runners.len())?;
    let mut enabled = Vec::new(alloc);
    for _count in 0..TURNS {
        let made = turn_drawn(
            alloc,
            plan,
            &mut objects,
            &mut runners,
            &mut forms,
            &mut known,
            &mut enabled,
            &mut generator,
        )?;
        if !made {
            let outcome = end(alloc, plan, runners)?;
            return Ok(outcome);
        }
    }
    unreachable!()
}

/// Replays the scenario of this plan: at each turn one of the enabled threads makes its next step,
/// until none is enabled. Without a seed it is the one of the least number. With a seed, and where
/// more than one is enabled, a word of SplitMix64 is drawn, and its remainder by their count is the
/// place of the thread among them in number order. Every schedule of the scenario has fewer than
/// 2^28 turns.
pub fn replay_plan(alloc: Global, plan: &Plan, seed: Option<u64>) -> Result<Replayed, NoMemory>
    requires { IsLight (scene_of plan.now) }
    ensures outcome { IfOk result (λ r. Replays (scene_of plan.now) seed (replayed_of r)) }
    ensures stuck { IfOk result IsLiveWhereStuck }
{
    match seed {
        None => replay_first(alloc, plan),
        Some(seed) => replay_drawn(alloc, plan, seed),
    }
}
