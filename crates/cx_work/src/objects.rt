//! The scenario whose objects threads share.
use cx_names::NoMemory;
use cx_scene::Plan;
use std::alloc::Global;
use std::sync::Arc;

/// The scenario of the objects that threads share. The objects themselves are held by the accesses to them.
#[derive(Drop)]
pub struct Objects {
    /// The scenario.
    pub plan: Arc<Plan, Global>,
}

impl Objects {
    ghost use Rattle.std.specs.Prelude.{◌≡◌, IfOk};
    ghost use Rattle.cx_work.specs.Bodies.{scene_in};

    /// The same once more, for another thread. `NoMemory` where no further handle is to be had.
    pub fn share(&self) -> Result<Objects, NoMemory>
        ensures { IfOk result (λ r. scene_in r ≡ scene_in self.now) }
    {
        Ok(Objects {
            plan: Arc::try_clone(&self.plan)?,
        })
    }
}
