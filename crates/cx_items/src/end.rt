ghost use Rattle.std.specs.Prelude.{◌≡◌, ◌++◌, replicate, IfOk};
ghost use Rattle.cx_scene.specs.Scene.{scene_of};
ghost use Rattle.cx_items.specs.Memory.{of};
ghost use Rattle.cx_items.specs.Calls.{each_object, each_thread, gives_up, unshares, unlock, breaks, awaits, stops, owner_of, is_number_of, end_tasks};

use crate::agenda::Agenda;
use crate::calls::set_form;
use crate::form::{Form, Wanted};
use crate::item::Control;
use crate::memory::Memory;
use crate::task::Task;
use cx_machine::Op;
use cx_names::{NoMemory, ObjectNo, Outcome, Reply, ThreadNo};
use cx_scene::{Object, Plan, Thread};

/// Whether thread `t` owns the promise or task.
pub fn is_owned(object: &Object, t: ThreadNo) -> bool
    ensures { result ≡ is_number_of t.0 (owner_of object.now) }
{
    match object {
        Object::Promise { owner, .. } => t.0 == owner.0,
        Object::SharedPromise { owner, .. } => t.0 == owner.0,
        Object::Task { owner, .. } => t.0 == owner.0,
        _ => false,
    }
}

/// The number as one of 32 bits; what is declared past them doesn't fit any memory.
fn number(i: usize) -> Result<u32, NoMemory>
    ensures { IfOk result (λ n. n ≡ i) }
{
    u32::try_from(i).ok().ok_or(NoMemory)
}

impl Agenda {
    /// Puts the acts at the end of the body of thread `t`.
    pub fn end(&mut self, plan: &Plan, t: ThreadNo, memory: &Memory) -> Result<(), NoMemory>
        ensures { IfOk result (λ _. self.new ≡ end_tasks (scene_of plan.now) t.0 memory.now ++ self.old) }
    {
        if t.0 == 0 {
            self.put_stops(plan, memory)?;
            self.put_awaits(plan, memory)?;
        }
        self.put_breaks(plan, t, memory)?;
        self.put_unlocks(plan, memory)
    }

    /// Puts what stops and joins the threads that main has started and not joined.
    fn put_stops(&mut self, plan: &Plan, memory: &Memory) -> Result<(), NoMemory>
        ensures { IfOk result (λ _. self.new ≡ each_thread (stops memory.now) 0 (scene_of plan.now).threads ++ self.old) }
    {
        for i in 0..plan.threads.len() {
            let u = number(i)?;
            self.put_stop(memory, u, plan.threads[i])?;
        }
        Ok(())
    }

    /// Puts what stops and joins thread `u`.
    fn put_stop(&mut self, memory: &Memory, u: u32, thread: Thread) -> Result<(), NoMemory>
        ensures { IfOk result (λ _. self.new ≡ stops memory.now u thread ++ self.old) }
    {
        if let Thread::Stoppable(stop) = thread {
            if memory.is_joinable(ThreadNo(u)) {
                self.put_one(Form::Does(Control::Join(ThreadNo(u))))?;
                self.put(Task::Requests(stop, false))?;
            }
        }
        Ok(())
    }

    /// Puts looks at the outcomes of the launched asyncs.
    fn put_awaits(&mut self, plan: &Plan, memory: &Memory) -> Result<(), NoMemory>
        ensures { IfOk result (λ _. self.new ≡ each_object (awaits memory.now) 0 (scene_of plan.now).objects ++ self.old) }
    {
        for i in (0..plan.objects.len()).rev() {
            self.put_await(memory, ObjectNo(number(i)?), &plan.objects[i])?;
        }
        Ok(())
    }

    /// Puts a look at the outcome of object `o`, where it is a launched async.
    fn put_await(&mut self, memory: &Memory, o: ObjectNo, _object: &Object) -> Result<(), NoMemory>
        ensures { IfOk result (λ _. self.new ≡ awaits memory.now o _object.now ++ self.old) }
    {
        let kept = memory.of(o);
        if kept.is_launched && kept.is_valid {
            self.put_one(Form::Look(o, Op::Ready, 0, 0, Wanted::AnOutcome))?;
        }
        Ok(())
    }

    /// Puts what breaks the promises that thread `t` owns and leaves unsatisfied.
    fn put_breaks(&mut self, plan: &Plan, t: ThreadNo, memory: &Memory) -> Result<(), NoMemory>
        ensures { IfOk result (λ _. self.new ≡ each_object (breaks t.0 memory.now) 0 (scene_of plan.now).objects ++ self.old) }
    {
        for i in (0..plan.objects.len()).rev() {
            self.put_break(t, memory, ObjectNo(number(i)?), &plan.objects[i])?;
        }
        Ok(())
    }

    /// Puts what breaks object `o`, where it is such a promise.
    fn put_break(
        &mut self,
        t: ThreadNo,
        memory: &Memory,
        o: ObjectNo,
        object: &Object,
    ) -> Result<(), NoMemory>
        ensures { IfOk result (λ _. self.new ≡ breaks t.0 memory.now o object.now ++ self.old) }
    {
        let kept = memory.of(o);
        if is_owned(object, t) && !kept.is_set && !kept.is_dropped {
            self.put_one(set_form(o, Outcome::Broken))?;
        }
        Ok(())
    }

    /// Puts unlocks of what the thread still owns or shares.
    fn put_unlocks(&mut self, plan: &Plan, memory: &Memory) -> Result<(), NoMemory>
        ensures { IfOk result (λ _. self.new ≡ each_object (gives_up memory.now) 0 (scene_of plan.now).objects ++ self.old) }
    {
        for i in (0..plan.objects.len()).rev() {
            self.put_unlocks_of(memory, ObjectNo(number(i)?), &plan.objects[i])?;
        }
        Ok(())
    }

    /// Puts an unlock of object `o`, where the thread shares it.
    fn put_unshare(&mut self, memory: &Memory, o: ObjectNo) -> Result<(), NoMemory>
        ensures { IfOk result (λ _. self.new ≡ unshares memory.now o ++ self.old) }
    {
        if memory.of(o).reads {
            self.put_one(Form::change(o, Op::UnlockShared, 0, Reply::Ok))?;
        }
        Ok(())
    }

    /// Puts an unlock for each level of object `o`.
    fn put_levels(&mut self, memory: &Memory, o: ObjectNo) -> Result<(), NoMemory>
        ensures { IfOk result (λ _. self.new ≡ replicate (of memory.now o).levels (unlock o) ++ self.old) }
    {
        for _level in 0..memory.of(o).levels {
            self.put_one(Form::change(o, Op::Unlock, 0, Reply::Ok))?;
        }
        Ok(())
    }

    /// Puts what gives up object `o`.
    fn put_unlocks_of(
        &mut self,
        memory: &Memory,
        o: ObjectNo,
        _object: &Object,
    ) -> Result<(), NoMemory>
        ensures { IfOk result (λ _. self.new ≡ gives_up memory.now o _object.now ++ self.old) }
    {
        self.put_unshare(memory, o)?;
        self.put_levels(memory, o)?;
        Ok(())
    }
}
