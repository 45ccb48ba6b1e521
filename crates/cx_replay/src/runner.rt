ghost use Rattle.std.specs.Prelude.{◌≡◌, ◌++◌, ◌∷◌, [], true, map, is_some, IfOk, Some};
ghost use Rattle.std.specs.Option.{option_map};
ghost use Rattle.cx_scene.specs.Scene.{scene_of};
ghost use Rattle.cx_items.specs.Next.{moved, offered, reached};
ghost use Rattle.cx_items.specs.Steps.{local_of};
ghost use Rattle.cx_replay.specs.Schedule.{beginner, has_ended, moved_to, after_made};
ghost use Rattle.cx_replay.specs.Views.{thing_of, runner_of};

use crate::objects::{ObjectNow, is_completing};
use cx_items::{Item, Local};
use cx_names::{NoMemory, ThreadNo};
use cx_scene::Plan;
use std::alloc::Global;

/// A thread that was started: where it stands, and what it has done.
#[derive(Drop)]
pub struct RunnerNow {
    pub local: Local,
    pub done: Vec<Item>,
}

impl RunnerNow {
    /// Thread `t` at its start.
    pub fn begin(alloc: Global, plan: &Plan, t: ThreadNo) -> Result<RunnerNow, NoMemory>
        ensures { IfOk result (λ r. Some (runner_of (scene_of plan.now) t.0 r) ≡ beginner (scene_of plan.now) t.0) }
    {
        let local = Local::start(alloc, plan, t)?;
        Ok(RunnerNow {
            local,
            done: Vec::new(alloc),
        })
    }

    /// The thread has made this item, which it may make where it stands.
    fn go_on(
        &mut self,
        plan: &Plan,
        t: ThreadNo,
        completing: bool,
        item: Item,
    ) -> Result<(), NoMemory>
        requires { is_some (reached (scene_of plan.now) (offered (scene_of plan.now) t.0 (local_of (scene_of plan.now) t.0 self.old.local)) item) ≡ true }
        ensures { IfOk result (λ _. option_map (moved_to (self.old.done.items ++ item ∷ [])) (moved (scene_of plan.now) completing t.0 (local_of (scene_of plan.now) t.0 self.old.local) item) ≡ Some (runner_of (scene_of plan.now) t.0 self.new)) }
    {
        self.local.after_item(plan, t, completing, &item)?;
        self.done.push(item)?;
        Ok(())
    }

    /// The thread has made this item, which it may make where it stands, and the reply that is due then.
    pub fn make(
        &mut self,
        plan: &Plan,
        objects: &[ObjectNow],
        t: ThreadNo,
        item: Item,
    ) -> Result<(), NoMemory>
        requires { is_some (reached (scene_of plan.now) (offered (scene_of plan.now) t.0 (local_of (scene_of plan.now) t.0 self.old.local)) item) ≡ true }
        ensures { IfOk result (λ _. after_made (scene_of plan.now) (map thing_of objects.now) t.0 (runner_of (scene_of plan.now) t.0 self.old) item ≡ Some (runner_of (scene_of plan.now) t.0 self.new)) }
    {
        let completing = is_completing(objects, &item);
        self.go_on(plan, t, completing, item)?;
        match item {
            Item::Said(_) => Ok(()),
            _ => match self.local.due_reply_now() {
                Some(reply) => self.go_on(plan, t, false, Item::Said(reply)),
                None => Ok(()),
            },
        }
    }
}

/// Whether the thread has ended; one that wasn't started hasn't.
pub fn has_ended(plan: &Plan, runner: &Option<RunnerNow>, u: ThreadNo) -> bool
    ensures { result ≡ has_ended (option_map (runner_of (scene_of plan.now) u.0) runner.now) }
{
    match runner {
        Some(runner) => runner.local.is_ended(plan, u),
        None => false,
    }
}
