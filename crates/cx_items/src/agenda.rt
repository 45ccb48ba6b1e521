use crate::task::Task;
use cx_names::NoMemory;
use std::alloc::Global;
use std::marker::Model;

/// What is left of a call, the next task first: a stack, whose last element is the next task.
#[derive(Drop)]
pub struct Agenda {
    tasks: Vec<Task>,
}

impl Model for Agenda {
    ghost use Rattle.std.specs.Prelude.{List, reverse};
    ghost use Rattle.cx_items.specs.declared.task.Task.{Task as AnyTask};

    ghost Value = { List AnyTask };

    ghost view = { λ a. reverse a.tasks.items };
}

impl Agenda {
    ghost use Rattle.std.specs.Prelude.{◌≡◌, ◌<◌, ◌+◌, [], ◌∷◌, length, drop, slice_get, IfOk};
    ghost use Rattle.std.specs.Option.{option_copied};
    ghost use Rattle.cx_items.specs.Next.{due, undue};

    /// No task, with memory for `room` of them.
    pub fn with_room(alloc: Global, room: usize) -> Result<Agenda, NoMemory>
        ensures { IfOk result (λ agenda. agenda ≡ []) }
    {
        Ok(Agenda {
            tasks: Vec::with_capacity(alloc, room)?,
        })
    }

    /// How many tasks there are.
    pub fn len(&self) -> usize
        ensures { result ≡ length self.now }
    {
        self.tasks.len()
    }

    /// The task in front of which there are `depth` others.
    pub fn at(&self, depth: usize) -> &Task
        requires { depth < length self.now }
        ensures { slice_get self.now depth ≡ Some result.now }
    {
        &self.tasks[self.tasks.len() - 1 - depth]
    }

    /// The next task.
    pub fn first(&self) -> Option<&Task>
        ensures { option_copied result ≡ slice_get self.now 0 }
    {
        self.tasks.last()
    }

    /// Leaves no task.
    pub fn clear(&mut self)
        ensures { self.new ≡ [] }
    {
        self.tasks.clear();
    }

    /// Puts the task in front of the others.
    pub fn put(&mut self, task: Task) -> Result<(), NoMemory>
        ensures { IfOk result (λ _. self.new ≡ task ∷ self.old) }
    {
        self.tasks.push(task)?;
        Ok(())
    }

    /// Takes the task in front of which there are `depth` others, and these others.
    pub fn take(&mut self, depth: usize) -> Task
        requires { depth < length self.old }
        ensures taken { slice_get self.old depth ≡ Some result }
        ensures rest { self.new ≡ drop (depth + 1) self.old }
    {
        self.tasks.truncate(self.tasks.len() - depth);
        self.tasks.pop().unwrap()
    }

    /// How many tasks come next that are left out now: a completion that isn't due, or none.
    pub fn undue(&self) -> usize
        ensures { drop result self.now ≡ undue self.now }
    {
        match self.first() {
            Some(Task::Completes(_, false)) => 1,
            _ => 0,
        }
    }

    /// Leaves out a completion that isn't due.
    pub fn leave_undue(&mut self)
        ensures { self.new ≡ undue self.old }
    {
        if let Some(Task::Completes(_, false)) = self.first() {
            self.take(0);
        }
    }

    /// Makes a completion that comes next due.
    pub fn make_due(&mut self) -> Result<(), NoMemory>
        ensures { IfOk result (λ _. self.new ≡ due self.old) }
    {
        if let Some(Task::Completes(b, _)) = self.first() {
            let due = Task::Completes(*b, true);
            self.take(0);
            self.put(due)?;
        }
        Ok(())
    }
}
