ghost use Rattle.std.specs.Prelude.{◌≡◌, IfOk};
ghost use Rattle.std.specs.List.{sum_by};
ghost use Rattle.cx_scene.specs.Scene.{scene_of};
ghost use Rattle.cx_items.specs.Room.{left_by, owned_by, room_for};

use crate::end::is_owned;
use cx_names::{NoMemory, ThreadNo};
use cx_scene::{Call, Plan};

// No call has more tasks at once: a lock of five mutexes that backs off from the last has four to unlock and one to
// begin again, and a wait has four acts and what follows. A request at a body's end has two more than its own.
const TASKS_OF_A_CALL: usize = 5;

/// How many tasks the call may leave for the end of its body.
fn left_by(call: &Call) -> usize
    ensures { result ≡ left_by call.now }
{
    match call {
        Call::Lock(_) | Call::LockRecursive(_) | Call::LockShared(_) => 1,
        Call::TryLock(_) | Call::TryLockRecursive(_) | Call::TryLockShared(_) => 1,
        Call::LockAll(mutexes) => mutexes.len(),
        Call::TryLockAll(mutexes) => mutexes.len(),
        Call::Launch(_) => 1,
        Call::Start(_) => 2,
        _ => 0,
    }
}

/// How many tasks these calls may leave for the end of their body.
fn left_by_all(calls: &[Call]) -> Result<usize, NoMemory>
    ensures { IfOk result (λ count. count ≡ sum_by left_by calls.now) }
{
    let mut count: usize = 0;
    for call in calls {
        count = count.checked_add(left_by(call)).ok_or(NoMemory)?;
    }
    Ok(count)
}

/// How many promises and tasks of the plan thread `t` owns.
fn owned_by(plan: &Plan, t: ThreadNo) -> Result<usize, NoMemory>
    ensures { IfOk result (λ count. count ≡ owned_by t.0 (scene_of plan.now)) }
{
    let mut count: usize = 0;
    for object in plan.objects.iter() {
        let more = usize::from(is_owned(object, t));
        count = count.checked_add(more).ok_or(NoMemory)?;
    }
    Ok(count)
}

/// How many tasks thread `t` of the plan may have left at once.
pub fn room_for(plan: &Plan, t: ThreadNo) -> Result<usize, NoMemory>
    ensures { IfOk result (λ room. room ≡ room_for (scene_of plan.now) t.0) }
{
    let left = left_by_all(plan.body(t))?;
    let left = left.checked_add(owned_by(plan, t)?).ok_or(NoMemory)?;
    left.checked_add(TASKS_OF_A_CALL).ok_or(NoMemory)
}
