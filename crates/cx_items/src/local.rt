use crate::agenda::Agenda;
use crate::calls::{function_outcome, set_form};
use crate::fit::Found;
use crate::form::Form;
use crate::item::Item;
use crate::memory::Memory;
use crate::room::room_for;
use crate::task::Task;
use cx_names::{NoMemory, Reply, ThreadNo};
use cx_scene::{Plan, Thread};
use std::alloc::Global;

/// Where a thread stands: what it remembers, what is left of its call, and the number of the next
/// call that replies.
#[derive(Drop)]
pub struct Local {
    pub(crate) memory: Memory,
    pub(crate) agenda: Agenda,
    next_call: usize,
}

impl Local {
    ghost use Rattle.std.specs.Prelude.{◌≡◌, ℕ, IfOk, map, drop};
    ghost use Rattle.cx_scene.specs.Scene.{scene_of};
    ghost use Rattle.cx_items.specs.Next.{local_at_start, is_ended, offered, offered_by, moved, undue, settled_local, due_reply, next_call, past, replied};
    ghost use Rattle.cx_items.specs.Next.{Local as Stand};
    ghost use Rattle.cx_items.specs.Steps.{local_of, IsMove, Finds, form_of};

    /// Thread `t` of the plan at its start [thread.thread.constr].
    ///
    /// The memory that its items need later is taken here: what it keeps of each object, and room for its
    /// registrations, for the threads that it starts and for what a call or the end of its body leaves to do.
    /// `NoMemory` where memory doesn't suffice.
    pub fn start(alloc: Global, plan: &Plan, t: ThreadNo) -> Result<Local, NoMemory>
        ensures { IfOk result (λ l. local_of (scene_of plan.now) t.0 l ≡ local_at_start (scene_of plan.now) t.0) }
    {
        let mut local = Local {
            memory: Memory::start(alloc, plan, t)?,
            agenda: Agenda::with_room(alloc, room_for(plan, t)?)?,
            next_call: 0,
        };
        match plan.thread(t) {
            Some(Thread::Launched(o)) => {
                let outcome = function_outcome(plan.object(o));
                local.agenda.put_one(set_form(o, outcome))?;
            }
            _ => local.next_call(plan, t)?,
        }
        Ok(local)
    }

    /// Whether nothing is left of the call, and no call of the body of thread `t`.
    pub fn is_ended(&self, plan: &Plan, t: ThreadNo) -> bool
        ensures { result ≡ is_ended (local_of (scene_of plan.now) t.0 self.now) }
    {
        self.agenda.len() == 0 && plan.body(t).len() <= self.next_call
    }

    /// What the next item of thread `t` may be, into `out` in place of what is there.
    pub fn offered(&self, plan: &Plan, t: ThreadNo, out: &mut Vec<Form>) -> Result<(), NoMemory>
        ensures { IfOk result (λ _. out.new.items ≡ map form_of (offered (scene_of plan.now) t.0 (local_of (scene_of plan.now) t.0 self.now))) }
    {
        self.forms_from(plan, 0, out)
    }

    /// The same, where a completion that isn't due is left out.
    pub fn offered_now(&self, plan: &Plan, t: ThreadNo, out: &mut Vec<Form>) -> Result<(), NoMemory>
        ensures { IfOk result (λ _. out.new.items ≡ map form_of (offered (scene_of plan.now) t.0 (settled_local (local_of (scene_of plan.now) t.0 self.now)))) }
    {
        self.forms_from(plan, self.agenda.undue(), out)
    }

    /// The forms of the tasks from this depth on, into `out` in place of what is there.
    fn forms_from(&self, plan: &Plan, first: usize, out: &mut Vec<Form>) -> Result<(), NoMemory>
        ensures { IfOk result (λ _. (t : ℕ) (k : Stand) → out.new.items ≡ map form_of (offered_by (scene_of plan.now) t k (drop first self.now.agenda))) }
    {
        out.clear();
        for depth in first..self.agenda.len() {
            let task = self.agenda.at(depth);
            task.forms(plan).push_to(out)?;
            if !task.may_be_skipped() {
                return Ok(());
            }
        }
        Ok(())
    }

    /// Whether thread `t` may make the item now, and if so makes it; `completing` says that a
    /// completion is due after it. Where it may not, the thread stands as it did. After an error
    /// the place is of no use.
    pub fn after_item(
        &mut self,
        plan: &Plan,
        t: ThreadNo,
        completing: bool,
        item: &Item,
    ) -> Result<bool, NoMemory>
        ensures { IfOk result (λ made. IsMove made (moved (scene_of plan.now) completing t.0 (local_of (scene_of plan.now) t.0 self.old) item.now) (local_of (scene_of plan.now) t.0 self.old) (local_of (scene_of plan.now) t.0 self.new)) }
    {
        match self.found(plan, t, *item) {
            None => Ok(false),
            Some(found) => {
                let task = self.agenda.take(found.skipped);
                self.step(plan, t, task, found.fit)?;
                self.memory.remember(plan, *item)?;
                if completing {
                    self.agenda.make_due()?;
                }
                Ok(true)
            }
        }
    }

    /// The first task that the item is of a form of, where only completions that aren't due are
    /// skipped.
    fn found(&self, plan: &Plan, t: ThreadNo, item: Item) -> Option<Found>
        ensures { Finds (scene_of plan.now) t.0 (local_of (scene_of plan.now) t.0 self.now) item result }
    {
        for skipped in 0..self.agenda.len() {
            let task = self.agenda.at(skipped);
            match task.forms(plan).first_fit(plan, item) {
                Some(fit) => return Some(Found { skipped, fit }),
                None => {
                    if !task.may_be_skipped() {
                        return None;
                    }
                }
            }
        }
        None
    }

    /// Leaves out a completion that isn't due.
    pub fn settle(&mut self)
        ensures { self.new ≡ record self.old { agenda = undue self.old.agenda } }
    {
        self.agenda.leave_undue();
    }

    /// The reply that comes next, where no act comes before it.
    pub fn due_reply(&self) -> Option<Reply>
        ensures { result ≡ due_reply self.now.agenda }
    {
        match self.agenda.first() {
            Some(Task::Says(reply)) => Some(*reply),
            _ => None,
        }
    }

    /// The same, where a completion that isn't due is left out.
    pub fn due_reply_now(&self) -> Option<Reply>
        ensures { result ≡ due_reply (undue self.now.agenda) }
    {
        let depth = self.agenda.undue();
        if depth >= self.agenda.len() {
            return None;
        }
        match self.agenda.at(depth) {
            Task::Says(reply) => Some(*reply),
            _ => None,
        }
    }

    /// Opens the next call, or the end of the body, in place of what is left.
    fn next_call(&mut self, plan: &Plan, t: ThreadNo) -> Result<(), NoMemory>
        ensures { IfOk result (λ _. local_of (scene_of plan.now) t.0 self.new ≡ next_call (scene_of plan.now) t.0 (local_of (scene_of plan.now) t.0 self.old)) }
    {
        let body = plan.body(t);
        self.agenda.clear();
        if self.next_call < body.len() {
            let call = &body[self.next_call];
            self.agenda
                .open(plan, t, self.next_call, &self.memory, call)?;
            Ok(())
        } else {
            self.agenda.end(plan, t, &self.memory)?;
            Ok(())
        }
    }

    /// The call has replied.
    pub(crate) fn reply(&mut self, plan: &Plan, t: ThreadNo, reply: Reply) -> Result<(), NoMemory>
        ensures { IfOk result (λ _. local_of (scene_of plan.now) t.0 self.new ≡ replied (scene_of plan.now) t.0 (local_of (scene_of plan.now) t.0 self.old) reply) }
    {
        self.pass(plan, t, reply);
        self.next_call(plan, t)?;
        Ok(())
    }

    /// Goes past the call, which has replied.
    fn pass(&mut self, plan: &Plan, t: ThreadNo, reply: Reply)
        ensures { local_of (scene_of plan.now) t.0 self.new ≡ past (local_of (scene_of plan.now) t.0 self.old) reply (local_of (scene_of plan.now) t.0 self.old).calls }
    {
        let body = plan.body(t);
        if self.next_call >= body.len() {
            return;
        }
        self.memory.settle(&body[self.next_call], reply);
        self.next_call += 1;
    }
}
