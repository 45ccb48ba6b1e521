//! Making the objects of a scenario, and each thread's accesses.
ghost use Rattle.std.specs.Prelude.{◌≡◌, ◌≤◌, ◌<◌, ◌+◌, ◌-◌, ◌*◌, ◌^◌, ℕ, min, true, length, slice_get, Some, vec_len, IfOk, OnOk};
ghost use Rattle.std.specs.List.{list_all};
ghost use Rattle.cx_scene.specs.Scene.{scene_of};
ghost use Rattle.cx_asks.specs.Scenes.{is_object_now, count_at, takes_of, takings};
ghost use Rattle.cx_work.specs.RunNow.{IsRunNow, AreNew, AreAllNew, objects_of_all, share_at, AreGiven, AreShared};
ghost use Rattle.cx_work.specs.Accesses.{AreMadeAs, objects_of};

use crate::copies::copy_of;
use crate::objects::Objects;
use cx_kinds::{Access, made};
use cx_names::{NoMemory, PASS_CHANGES, ThreadNo};
use cx_scene::{Call, Object, Plan};
use std::alloc::Global;
use std::sync::Arc;

/// Each thread's accesses to the objects, main's first.
#[derive(Drop)]
pub struct Passes {
    /// By the number of the thread, and then by that of the object.
    pub threads: Vec<Vec<Access>>,
}

/// How much of the counter of latch `o` a call takes.
fn takes_of(call: &Call, o: usize) -> u32
    ensures { result ≡ takes_of o call.now }
{
    match call {
        Call::CountDown(l, n) => { if l.0 as usize == o { *n } else { 0 } }
        Call::ArriveAndWaitLatch(l) => { if l.0 as usize == o { 1 } else { 0 } }
        _ => 0,
    }
}

/// How much of the counter of latch `o` these calls take, or the greatest number if that is more.
fn taken_by(calls: &[Call], o: usize) -> u32
    ensures { result ≡ min 4294967295 (takings o calls.now) }
{
    let mut taken: u32 = 0;
    for i in 0..calls.len() {
        taken = taken.saturating_add(takes_of(&calls[i], o));
    }
    taken
}

/// The accesses of the next thread, split off main's, which were split `splits` times.
fn row_of(
    alloc: Global,
    plan: &Plan,
    main: &mut [Access],
    threads: u32,
    splits: u32,
) -> Result<Vec<Access>, NoMemory>
    requires main { AreNew (objects_of main.old) threads 0 (131072 * (threads - splits)) splits main.old }
    requires room { splits + 1 < threads }
    ensures main { OnOk result (AreNew (objects_of main.old) threads 0 (131072 * (threads - (splits + 1))) (splits + 1) main.new) }
    ensures row { IfOk result (λ r. AreNew (objects_of main.old) threads (splits + 1) 131072 0 r.items) }
    ensures shares { IfOk result (λ r. AreGiven (scene_of plan.now) (splits + 1) main.old main.new r.items) }
{
    let _ = threads;
    let thread = ThreadNo(splits + 1);
    let mut row = Vec::with_capacity(alloc, main.len())?;
    for o in 0..main.len() {
        let share = taken_by(plan.body(thread), o);
        let access = main[o].split(PASS_CHANGES, share)?;
        row.push(access)?;
    }
    Ok(row)
}

/// Main's accesses to objects of these declarations for so many threads.
fn all_of(alloc: Global, declared: &[Object], threads: u32) -> Result<Vec<Access>, NoMemory>
    requires now { list_all is_object_now declared.now ≡ true }
    requires threads { (1 ≤ threads) × (threads ≤ 64) }
    ensures objects { IfOk result (λ r. AreMadeAs declared.now (objects_of r.items)) }
    ensures new { IfOk result (λ r. AreNew (objects_of r.items) threads 0 (131072 * threads) 0 r.items) }
    ensures shares { IfOk result (λ r. (o : ℕ) → share_at r.items o ≡ count_at declared.now o) }
{
    let mut all = Vec::with_capacity(alloc, declared.len())?;
    for object in declared {
        let access = made(alloc, object, threads)?;
        all.push(access)?;
    }
    Ok(all)
}

impl Objects {
    ghost use Rattle.cx_work.specs.Bodies.{scene_in};

    /// The objects of a scenario as it declares them, and for each thread an access to each object that may
    /// make 131,072 changes [thread.mutex.requirements, thread.sema.cnt, thread.latch.class]. A thread's
    /// share of a latch is what its own text takes from it, as far as main has it; what is left stays with
    /// main.
    ///
    /// `plan` has 1 to 64 threads, all plain. Its objects are mutexes without numbers, recursive and shared
    /// mutexes, semaphores, latches, once flags and barriers whose completion, if there is one, releases a
    /// semaphore; its calls are on these or start and join, and it has no callbacks. A semaphore's greatest
    /// value is 1 to 65,535 and its count at most that; a latch's count is at most 65,535, a barrier's 1 to
    /// 4,096. `NoMemory` where memory doesn't suffice.
    pub fn make(alloc: Global, plan: &Plan) -> Result<(Objects, Passes), NoMemory>
        requires now { IsRunNow (scene_of plan.now) }
        requires threads { (1 ≤ vec_len plan.now.threads) × (vec_len plan.now.threads ≤ 64) }
        ensures scene { IfOk result (λ r. scene_in r.0 ≡ scene_of plan.now) }
        ensures objects { IfOk result (λ r. AreMadeAs (scene_of plan.now).objects (objects_of_all r.1.threads.items)) }
        ensures passes { IfOk result (λ r. AreAllNew (objects_of_all r.1.threads.items) (vec_len plan.now.threads) r.1.threads.items) }
        ensures shares { IfOk result (λ r. AreShared (scene_of plan.now) r.1.threads.items) }
    {
        let threads = plan.threads.len() as u32;
        let mut main = all_of(alloc, plan.objects.as_slice(), threads)?;
        let mut passes = Vec::with_capacity(alloc, plan.threads.len())?;
        for splits in 0..threads - 1 {
            let row = row_of(alloc, plan, main.as_mut_slice(), threads, splits)?;
            passes.push(row)?;
        }
        passes.insert(0, main)?;
        let objects = Objects {
            plan: Arc::new(alloc, copy_of(alloc, plan)?)?,
        };
        Ok((objects, Passes { threads: passes }))
    }
}
