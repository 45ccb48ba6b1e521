ghost use Rattle.std.specs.Prelude.{◌≡◌, ◌++◌, ◌∷◌, [], OnOk, IfOk, Some, None, Option, List, map};
ghost use Rattle.cx_scenario.specs.Views.{groups_seen, group_seen};
ghost use Rattle.cx_scenario.specs.Finished.{all_groups};
ghost use Rattle.cx_scenario.specs.Steps.{closed, begun, with_call};

use cx_names::NoMemory;
use cx_scene::Call;
use std::alloc::Global;

/// The calls of a body, and whose they are.
#[derive(Drop)]
pub struct Group<'a> {
    pub thread: &'a [u8],
    pub calls: Vec<Call>,
}

/// The bodies in the order in which they are read, the one under way last.
#[derive(Drop)]
pub struct Groups<'a> {
    pub done: Vec<Group<'a>>,
    pub under_way: Option<Group<'a>>,
}

impl<'a> Groups<'a> {
    /// The body under way is over.
    pub fn close(&mut self) -> Result<(), NoMemory>
        ensures { OnOk result (groups_seen self.new ≡ closed (groups_seen self.old)) }
    {
        match self.under_way.take() {
            None => Ok(()),
            Some(group) => {
                self.done.push(group)?;
                Ok(())
            }
        }
    }

    /// The body of a thread begins.
    pub fn begin(&mut self, alloc: Global, thread: &'a [u8]) -> Result<(), NoMemory>
        ensures { OnOk result (groups_seen self.new ≡ begun (groups_seen self.old) thread.now) }
    {
        self.close()?;
        self.under_way = Some(Group {
            thread,
            calls: Vec::new(alloc),
        });
        Ok(())
    }

    /// A call of the body under way comes.
    pub fn call(&mut self, call: Call) -> Result<(), NoMemory>
        ensures { OnOk result (groups_seen self.new ≡ with_call (groups_seen self.old) call) }
    {
        match self.under_way.take() {
            None => Ok(()),
            Some(group) => {
                let mut group = group;
                group.calls.push(call)?;
                self.under_way = Some(group);
                Ok(())
            }
        }
    }
    /// All bodies, the one under way last.
    pub fn finish(self) -> Result<Vec<Group<'a>>, NoMemory>
        ensures { IfOk result (λ done. map group_seen done.items ≡ all_groups (groups_seen self.entry)) }
    {
        let Groups { done, under_way } = self;
        let mut done = done;
        match under_way {
            None => Ok(done),
            Some(group) => {
                done.push(group)?;
                Ok(done)
            }
        }
    }
}
