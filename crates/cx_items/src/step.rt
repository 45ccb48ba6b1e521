ghost use Rattle.std.specs.Prelude.{◌≡◌, ◌+◌, ◌++◌, ◌∷◌, [], ◌≤◌, length, reverse, take, drop, IfOk};
ghost use Rattle.cx_scene.specs.Scene.{scene_of};
ghost use Rattle.cx_items.specs.declared.task.Task.TheVariants as tasks;
ghost use Rattle.cx_items.specs.Next.{passes, number_of, end_of_wait, wake_tasks, unlocks, action_tasks, callback_tasks};
ghost use Rattle.cx_items.specs.Steps.{Steps};

use crate::agenda::Agenda;
use crate::calls::{done, small_forms, unblocks};
use crate::fit::{Fit, Which};
use crate::form::{Form, Forms, Wanted};
use crate::local::Local;
use crate::memory::Memory;
use crate::task::{StopWait, Task};
use cx_machine::Op;
use cx_names::{NoMemory, ObjectNo, Reply, ThreadNo};
use cx_scene::{Action, Few, Object, Plan, Policy, Predicate, Registration};

/// The number that was replied, or 0.
fn number_of(reply: Reply) -> i64
    ensures { result ≡ number_of reply }
{
    match reply {
        Reply::Number(n) => n,
        _ => 0,
    }
}

/// Whether the number that was read is as the test wants it.
fn passes(test: Predicate, reply: Reply) -> bool
    ensures { result ≡ passes test reply }
{
    match reply {
        Reply::Number(x) => test.relation.holds(x, test.value),
        _ => false,
    }
}

/// The next number.
fn one_more(k: u32) -> Result<u32, NoMemory>
    ensures { IfOk result (λ more. more ≡ k + 1) }
{
    k.checked_add(1).ok_or(NoMemory)
}

/// The mutexes from number `k` on, and then those before it.
fn turned(mutexes: &Few, k: u32) -> Few
    ensures { result ≡ drop k mutexes.now ++ take k mutexes.now }
{
    let count = mutexes.len().min(k as usize);
    let numbers = mutexes.as_slice();
    let mut turned = Few::new();
    push_all(&mut turned, &numbers[count..]);
    push_all(&mut turned, &numbers[..count]);
    turned
}

/// Puts the numbers after the others; there are at most five in all.
fn push_all(few: &mut Few, numbers: &[u32])
    requires { length few.old + length numbers.now ≤ 5 }
    ensures { few.new ≡ few.old ++ numbers.now }
{
    for n in numbers {
        few.push(*n);
    }
}

impl Agenda {
    /// Puts unlocks of the first `k` mutexes, the last first.
    fn put_unlocks_from(&mut self, mutexes: &Few, k: u32) -> Result<(), NoMemory>
        ensures { IfOk result (λ _. self.new ≡ unlocks (reverse (take k mutexes.now)) ++ self.old) }
    {
        let mutexes = mutexes.as_slice();
        let count = mutexes.len().min(k as usize);
        for o in &mutexes[..count] {
            self.put_one(done(ObjectNo(*o), Op::Unlock))?;
        }
        Ok(())
    }

    /// Puts the end of a stop-aware wait with this reply.
    fn put_ends(&mut self, w: StopWait, reply: Reply) -> Result<(), NoMemory>
        ensures { IfOk result (λ _. self.new ≡ end_of_wait w reply ++ self.old) }
    {
        self.put(Task::Says(reply))?;
        if w.queued {
            self.put(Task::Makes(Forms::Two(
                Form::change(w.stop, Op::Deregister, w.id, Reply::Removed),
                Form::change(w.stop, Op::Deregister, w.id, Reply::Ran),
            )))?;
        }
        Ok(())
    }

    /// Puts that a stop-aware wait is woken by one of these acts, and goes on.
    fn put_wakes(&mut self, w: StopWait, forms: Forms) -> Result<(), NoMemory>
        ensures { IfOk result (λ _. self.new ≡ wake_tasks w forms ++ self.old) }
    {
        self.put(Task::AsksStop(w))?;
        self.put_one(done(w.mutex, Op::Lock))?;
        self.put(Task::Makes(forms))
    }

    /// Puts the acts of the callback of this ID.
    fn put_callback(&mut self, plan: &Plan, memory: &Memory, id: i64) -> Result<(), NoMemory>
        ensures { IfOk result (λ _. self.new ≡ callback_tasks (scene_of plan.now) memory.now id ++ self.old) }
    {
        if id < 0 {
            return Ok(());
        }
        match plan.registration(id as u64) {
            Some(Registration::OfWait(c, _)) => {
                self.put_one(Form::Change(c, Op::NotifyAll, 0, 0, Wanted::ANumber))
            }
            Some(Registration::OfCallback(k)) => match plan.callback(k) {
                Some(callback) => self.put_action(
                    memory,
                    id as u64,
                    callback.stop,
                    callback.action,
                ),
                None => Ok(()),
            },
            None => Ok(()),
        }
    }

    /// Puts the act of a callback.
    fn put_action(
        &mut self,
        memory: &Memory,
        id: u64,
        stop: ObjectNo,
        action: Action,
    ) -> Result<(), NoMemory>
        ensures { IfOk result (λ _. self.new ≡ action_tasks memory.now id stop action ++ self.old) }
    {
        match action {
            Action::Small(small) => self.put(Task::Makes(small_forms(small))),
            Action::Deregister => {
                if memory.holds_id(id) {
                    let id = i64::try_from(id).ok().ok_or(NoMemory)?;
                    let wanted = Wanted::Just(Reply::Inside);
                    self.put_one(Form::Change(stop, Op::Deregister, id, 0, wanted))
                } else {
                    Ok(())
                }
            }
        }
    }
}

impl Local {
    /// Goes on from the task, which is no longer on the agenda, where the item was of the form of
    /// this fit.
    pub fn step(&mut self, plan: &Plan, t: ThreadNo, task: Task, fit: Fit) -> Result<(), NoMemory>
        ensures { IfOk result (λ _. Steps (scene_of plan.now) t.0 self.old task fit self.new) }
    {
        match task {
            Task::Makes(_) => Ok(()),
            Task::Answers(_) => self.agenda.put(Task::Says(fit.reply)),
            Task::Says(_) => self.reply(plan, t, fit.reply),
            Task::Arrives(b, n) => self.step_arrives(plan, t, b, n, fit),
            Task::ArrivesAndWaits(b) => self.step_arrives_and_waits(plan, t, b, fit),
            Task::ArrivesAndDrops(b) => self.step_arrives_and_drops(plan, t, b, fit),
            Task::Completes(b, must) => self.step_completes(plan, t, b, must, fit),
            Task::CallsOnce(o, form, reply) => self.step_calls_once(plan, t, o, form, reply, fit),
            Task::LocksFrom(os) => self.agenda.put(Task::LocksRest(os, 1)),
            Task::LocksRest(os, k) => self.step_locks_rest(plan, t, os, k, fit),
            Task::TriesAll(os, k) => self.step_tries_all(plan, t, os, k, fit),
            Task::Tests(c, m, test) => self.step_tests(plan, t, c, m, test, fit),
            Task::RegistersWait(w) => self.step_registers_wait(plan, t, w, fit),
            Task::AsksStop(w) => self.step_asks_stop(plan, t, w, fit),
            Task::TestsStop(w) => self.step_tests_stop(plan, t, w, fit),
            Task::TestsLast(w) => self.step_tests_last(plan, t, w, fit),
            Task::AsksAgain(w) => self.step_asks_again(plan, t, w, fit),
            Task::Requests(st, has_reply) => self.step_requests(plan, t, st, has_reply, fit),
            Task::Drains(st, has_reply) => self.step_drains(plan, t, st, has_reply, fit),
            Task::Registers(st, id) => self.step_registers(plan, t, st, id, fit),
            Task::Launches(a, u, policy) => self.step_launches(plan, t, a, u, policy, fit),
        }
    }

    /// Goes on from an arrival.
    fn step_arrives(
        &mut self,
        plan: &Plan,
        t: ThreadNo,
        b: ObjectNo,
        n: u32,
        fit: Fit,
    ) -> Result<(), NoMemory>
        ensures { IfOk result (λ _. Steps (scene_of plan.now) t.0 self.old (tasks.Arrives b n) fit self.new) }
    {
        match fit.which {
            Which::First => {
                self.agenda.put(Task::Says(fit.reply))?;
                self.agenda.put(Task::Completes(b, false))
            }
            _ => self.agenda.put(Task::Says(Reply::OverExpected)),
        }
    }

    /// Goes on from an arrival that waits.
    fn step_arrives_and_waits(
        &mut self,
        plan: &Plan,
        t: ThreadNo,
        b: ObjectNo,
        fit: Fit,
    ) -> Result<(), NoMemory>
        ensures { IfOk result (λ _. Steps (scene_of plan.now) t.0 self.old (tasks.ArrivesAndWaits b) fit self.new) }
    {
        match fit.which {
            Which::First => {
                let wanted = Wanted::Just(Reply::Ok);
                let phase = number_of(fit.reply);
                self.agenda.put(Task::Says(Reply::Ok))?;
                self.agenda
                    .put_one(Form::Look(b, Op::Wait, phase, 0, wanted))?;
                self.agenda.put(Task::Completes(b, false))
            }
            _ => self.agenda.put(Task::Says(Reply::OverExpected)),
        }
    }

    /// Goes on from an arrival that leaves the barrier.
    fn step_arrives_and_drops(
        &mut self,
        plan: &Plan,
        t: ThreadNo,
        b: ObjectNo,
        fit: Fit,
    ) -> Result<(), NoMemory>
        ensures { IfOk result (λ _. Steps (scene_of plan.now) t.0 self.old (tasks.ArrivesAndDrops b) fit self.new) }
    {
        match fit.which {
            Which::First => {
                self.agenda.put(Task::Says(Reply::Ok))?;
                self.agenda.put(Task::Completes(b, false))
            }
            _ => self.agenda.put(Task::Says(Reply::OverExpected)),
        }
    }

    /// Goes on from a completion.
    fn step_completes(
        &mut self,
        plan: &Plan,
        t: ThreadNo,
        b: ObjectNo,
        must: bool,
        fit: Fit,
    ) -> Result<(), NoMemory>
        ensures { IfOk result (λ _. Steps (scene_of plan.now) t.0 self.old (tasks.Completes b must) fit self.new) }
    {
        match plan.object(b) {
            Some(Object::Barrier { small: Some(_), .. }) => self
                .agenda
                .put_one(done(b, Op::Complete)),
            _ => Ok(()),
        }
    }

    /// Goes on from the beginning of `call_once`, or from a call that was passive.
    fn step_calls_once(
        &mut self,
        plan: &Plan,
        t: ThreadNo,
        o: ObjectNo,
        form: Form,
        reply: Reply,
        fit: Fit,
    ) -> Result<(), NoMemory>
        ensures { IfOk result (λ _. Steps (scene_of plan.now) t.0 self.old (tasks.CallsOnce o form reply) fit self.new) }
    {
        match fit.which {
            Which::First => {
                self.agenda.put(Task::Says(reply))?;
                self.agenda.put_one(form)
            }
            _ => self.agenda.put(Task::Says(Reply::Passive)),
        }
    }

    /// Goes on from a lock of mutex `k`, or backs off.
    fn step_locks_rest(
        &mut self,
        plan: &Plan,
        t: ThreadNo,
        os: Few,
        k: u32,
        fit: Fit,
    ) -> Result<(), NoMemory>
        ensures { IfOk result (λ _. Steps (scene_of plan.now) t.0 self.old (tasks.LocksRest os k) fit self.new) }
    {
        match fit.which {
            Which::First => {
                let locked = one_more(k)?;
                if locked as usize == os.len() {
                    self.agenda.put(Task::Says(Reply::Ok))
                } else {
                    self.agenda.put(Task::LocksRest(os, locked))
                }
            }
            _ => {
                if self.memory.has_turns() {
                    self.memory.take_turn()?;
                    self.agenda.put(Task::LocksFrom(turned(&os, k)))?;
                } else {
                    self.agenda.put(Task::Says(Reply::Spent))?;
                }
                self.agenda.put_unlocks_from(&os, k)
            }
        }
    }

    /// Goes on from a lock of mutex `k`, or gives up.
    fn step_tries_all(
        &mut self,
        plan: &Plan,
        t: ThreadNo,
        os: Few,
        k: u32,
        fit: Fit,
    ) -> Result<(), NoMemory>
        ensures { IfOk result (λ _. Steps (scene_of plan.now) t.0 self.old (tasks.TriesAll os k) fit self.new) }
    {
        match fit.which {
            Which::First => {
                let locked = one_more(k)?;
                if locked as usize == os.len() {
                    self.agenda.put(Task::Says(Reply::Number(-1)))
                } else {
                    self.agenda.put(Task::TriesAll(os, locked))
                }
            }
            _ => {
                self.agenda.put(Task::Says(Reply::Number(i64::from(k))))?;
                self.agenda.put_unlocks_from(&os, k)
            }
        }
    }

    /// Goes on from the test of `wait_pred`.
    fn step_tests(
        &mut self,
        plan: &Plan,
        t: ThreadNo,
        c: ObjectNo,
        m: ObjectNo,
        test: Predicate,
        fit: Fit,
    ) -> Result<(), NoMemory>
        ensures { IfOk result (λ _. Steps (scene_of plan.now) t.0 self.old (tasks.Tests c m test) fit self.new) }
    {
        if passes(test, fit.reply) {
            self.agenda.put(Task::Says(Reply::True))
        } else if self.memory.has_turns() {
            self.memory.take_turn()?;
            self.agenda.put(Task::Tests(c, m, test))?;
            self.agenda.put_waits(plan, c, m)
        } else {
            self.agenda.put(Task::Says(Reply::Spent))
        }
    }

    /// Goes on from the registration of a stop-aware wait.
    fn step_registers_wait(
        &mut self,
        plan: &Plan,
        t: ThreadNo,
        w: StopWait,
        fit: Fit,
    ) -> Result<(), NoMemory>
        ensures { IfOk result (λ _. Steps (scene_of plan.now) t.0 self.old (tasks.RegistersWait w) fit self.new) }
    {
        match fit.which {
            Which::First => self
                .agenda
                .put(Task::AsksStop(StopWait { queued: true, ..w })),
            Which::Second => {
                self.agenda.put(Task::AsksStop(w))?;
                self.agenda
                    .put_one(Form::change(w.stop, Op::Finish, w.id, Reply::Ok))?;
                self.agenda
                    .put_callback(plan, &self.memory, i64::from(w.id))
            }
            Which::Third => self.agenda.put(Task::AsksStop(w)),
        }
    }

    /// Goes on from the question whether a stop was requested.
    fn step_asks_stop(
        &mut self,
        plan: &Plan,
        t: ThreadNo,
        w: StopWait,
        fit: Fit,
    ) -> Result<(), NoMemory>
        ensures { IfOk result (λ _. Steps (scene_of plan.now) t.0 self.old (tasks.AsksStop w) fit self.new) }
    {
        match fit.which {
            Which::First => self.agenda.put(Task::TestsLast(w)),
            _ => self.agenda.put(Task::TestsStop(w)),
        }
    }

    /// Goes on from the test of a wait that isn't stopped.
    fn step_tests_stop(
        &mut self,
        plan: &Plan,
        t: ThreadNo,
        w: StopWait,
        fit: Fit,
    ) -> Result<(), NoMemory>
        ensures { IfOk result (λ _. Steps (scene_of plan.now) t.0 self.old (tasks.TestsStop w) fit self.new) }
    {
        if passes(w.test, fit.reply) {
            self.agenda.put_ends(w, Reply::True)
        } else if self.memory.has_turns() {
            self.agenda.put(Task::AsksAgain(w))?;
            self.agenda.put_one(done(w.mutex, Op::Unlock))?;
            self.agenda.put_one(done(w.condition, Op::Enter))
        } else {
            self.agenda.put_ends(w, Reply::Spent)
        }
    }

    /// Goes on from the test of a wait that is stopped.
    fn step_tests_last(
        &mut self,
        plan: &Plan,
        t: ThreadNo,
        w: StopWait,
        fit: Fit,
    ) -> Result<(), NoMemory>
        ensures { IfOk result (λ _. Steps (scene_of plan.now) t.0 self.old (tasks.TestsLast w) fit self.new) }
    {
        if passes(w.test, fit.reply) {
            self.agenda.put_ends(w, Reply::True)
        } else {
            self.agenda.put_ends(w, Reply::False)
        }
    }

    /// Goes on from the question whether a stop was requested since the wait has entered.
    fn step_asks_again(
        &mut self,
        plan: &Plan,
        t: ThreadNo,
        w: StopWait,
        fit: Fit,
    ) -> Result<(), NoMemory>
        ensures { IfOk result (λ _. Steps (scene_of plan.now) t.0 self.old (tasks.AsksAgain w) fit self.new) }
    {
        let unblocked = unblocks(plan, w.condition);
        match fit.which {
            Which::First => {
                let withdrawn = done(w.condition, Op::Withdraw);
                self.agenda.put_wakes(w, unblocked.or_first(withdrawn))
            }
            _ => {
                self.memory.take_turn()?;
                self.agenda.put_wakes(w, unblocked)
            }
        }
    }

    /// Goes on from a request.
    fn step_requests(
        &mut self,
        plan: &Plan,
        t: ThreadNo,
        st: ObjectNo,
        has_reply: bool,
        fit: Fit,
    ) -> Result<(), NoMemory>
        ensures { IfOk result (λ _. Steps (scene_of plan.now) t.0 self.old (tasks.Requests st has_reply) fit self.new) }
    {
        match fit.which {
            Which::First => self.agenda.put(Task::Drains(st, has_reply)),
            _ => {
                if has_reply {
                    self.agenda.put(Task::Says(Reply::Already))
                } else {
                    Ok(())
                }
            }
        }
    }

    /// Goes on from a callback that begins, or from the last one.
    fn step_drains(
        &mut self,
        plan: &Plan,
        t: ThreadNo,
        st: ObjectNo,
        has_reply: bool,
        fit: Fit,
    ) -> Result<(), NoMemory>
        ensures { IfOk result (λ _. Steps (scene_of plan.now) t.0 self.old (tasks.Drains st has_reply) fit self.new) }
    {
        match (fit.which, fit.reply) {
            (Which::First, Reply::Number(id)) => {
                let wanted = Wanted::Just(Reply::Ok);
                self.agenda.put(Task::Drains(st, has_reply))?;
                self.agenda
                    .put_one(Form::Change(st, Op::Finish, id, 0, wanted))?;
                self.agenda.put_callback(plan, &self.memory, id)
            }
            (Which::First, _) => Ok(()),
            _ => {
                if has_reply {
                    self.agenda.put(Task::Says(Reply::Made))
                } else {
                    Ok(())
                }
            }
        }
    }

    /// Goes on from `register`.
    fn step_registers(
        &mut self,
        plan: &Plan,
        t: ThreadNo,
        st: ObjectNo,
        id: u32,
        fit: Fit,
    ) -> Result<(), NoMemory>
        ensures { IfOk result (λ _. Steps (scene_of plan.now) t.0 self.old (tasks.Registers st id) fit self.new) }
    {
        match fit.which {
            Which::First => self.agenda.put(Task::Says(Reply::Queued)),
            Which::Second => {
                self.agenda.put(Task::Says(Reply::Ran))?;
                self.agenda
                    .put_one(Form::change(st, Op::Finish, id, Reply::Ok))?;
                self.agenda.put_callback(plan, &self.memory, i64::from(id))
            }
            Which::Third => self.agenda.put(Task::Says(Reply::Never)),
        }
    }

    /// Goes on from a launch.
    fn step_launches(
        &mut self,
        plan: &Plan,
        t: ThreadNo,
        a: ObjectNo,
        u: ThreadNo,
        policy: Policy,
        fit: Fit,
    ) -> Result<(), NoMemory>
        ensures { IfOk result (λ _. Steps (scene_of plan.now) t.0 self.old (tasks.Launches a u policy) fit self.new) }
    {
        match (policy, fit.which) {
            (Policy::Deferred, _) => self.agenda.put(Task::Says(Reply::Deferred)),
            (_, Which::First) => self.agenda.put(Task::Says(Reply::Launched)),
            (Policy::Async, _) => self.agenda.put(Task::Says(Reply::NoThread)),
            (Policy::Both, _) => {
                self.agenda.put(Task::Says(Reply::Deferred))?;
                self.agenda.put_one(done(a, Op::Defer))
            }
        }
    }
}
