ghost use Rattle.std.specs.Prelude.{◌≡◌, ◌++◌, ◌∷◌, slice_get, IfOk};
ghost use Rattle.std.specs.Option.{option_copied};
ghost use Rattle.cx_machine.specs.Words.{when};
ghost use Rattle.cx_names.specs.declared.Reply.TheVariants as replies;
ghost use Rattle.cx_scene.specs.Scene.{scene_of};
ghost use Rattle.cx_items.specs.Form.{change, look};
ghost use Rattle.cx_items.specs.Calls.{refusal, lock_refusal, stop_refusal, future_refusal, one, answer, either, set_form, small_forms, unblocks, waits, function_outcome, readies, looks, id_of, satisfied, registers, deregisters, held_id, lock_tasks, count_tasks, stop_tasks, future_tasks, tasks, opened};

use crate::agenda::Agenda;
use crate::form::{Form, Forms, Wanted};
use crate::item::Control;
use crate::memory::Memory;
use crate::task::{StopWait, Task};
use cx_machine::Op;
use cx_names::{CallbackNo, NoMemory, ObjectNo, Outcome, Reply, ThreadNo};
use cx_scene::{Call, Object, Plan, Small};

/// The reply where the call is refused.
fn when(refused: bool, reply: Reply) -> Option<Reply>
    ensures { result ≡ when refused reply }
{
    if refused { Some(reply) } else { None }
}

impl Memory {
    /// The reply of a call that makes no act.
    pub fn refusal(&self, plan: &Plan, call: &Call) -> Option<Reply>
        ensures { result ≡ refusal (scene_of plan.now) self.now call.now }
    {
        if let Some(reply) = self.lock_refusal(call) {
            return Some(reply);
        }
        if let Some(reply) = self.stop_refusal(plan, call) {
            return Some(reply);
        }
        self.future_refusal(call)
    }

    /// Of a call on a mutex.
    fn lock_refusal(&self, call: &Call) -> Option<Reply>
        ensures { result ≡ lock_refusal self.now call.now }
    {
        let deadlock = Reply::ResourceDeadlockWouldOccur;
        let not_permitted = Reply::OperationNotPermitted;
        match call {
            Call::Lock(o) => when(self.has_any(*o), deadlock),
            Call::LockShared(o) => when(self.has_any(*o), deadlock),
            Call::TryLock(o) => when(self.has_any(*o), deadlock),
            Call::TryLockShared(o) => when(self.has_any(*o), deadlock),
            Call::Unlock(o) => when(!self.owns(*o), not_permitted),
            Call::UnlockShared(o) => when(!self.of(*o).reads, not_permitted),
            Call::Get(o, _) => when(!self.owns(*o), not_permitted),
            Call::Set(o, ..) => when(!self.owns(*o), not_permitted),
            Call::Add(o, ..) => when(!self.owns(*o), not_permitted),
            Call::LockAll(os) => when(self.has_one(os.as_slice()), deadlock),
            Call::TryLockAll(os) => when(self.has_one(os.as_slice()), deadlock),
            Call::WaitCondition(_, o) => when(!self.owns(*o), not_permitted),
            Call::WaitPredicate(_, o, _) => when(!self.owns(*o), not_permitted),
            Call::WaitStop(_, o, ..) => when(!self.owns(*o), not_permitted),
            _ => None,
        }
    }

    /// Of a call on a barrier, a stop state or a thread.
    fn stop_refusal(&self, plan: &Plan, call: &Call) -> Option<Reply>
        ensures { result ≡ stop_refusal (scene_of plan.now) self.now call.now }
    {
        match call {
            Call::WaitBarrier(b) => when(self.of(*b).arrival.is_none(), Reply::NoToken),
            Call::RequestStop(st) => when(self.of(*st).sources == 0, Reply::NoState),
            Call::Another(st) => when(self.of(*st).sources == 0, Reply::NoState),
            Call::DropSource(st) => when(self.of(*st).sources == 0, Reply::NoState),
            Call::Deregister(k) => when(self.held_id(plan, *k).is_none(), Reply::NotHeld),
            Call::Join(t) => {
                if t.0 == 0 {
                    Some(Reply::ResourceDeadlockWouldOccur)
                } else {
                    when(!self.is_joinable(*t), Reply::InvalidArgument)
                }
            }
            _ => None,
        }
    }

    /// Of a call on a future or a promise.
    fn future_refusal(&self, call: &Call) -> Option<Reply>
        ensures { result ≡ future_refusal self.now call.now }
    {
        match call {
            Call::SetValue(p, _) => self.satisfied(*p, Reply::PromiseAlreadySatisfied),
            Call::SetException(p, _) => self.satisfied(*p, Reply::PromiseAlreadySatisfied),
            Call::Invoke(p) => self.satisfied(*p, Reply::PromiseAlreadySatisfied),
            Call::DropPromise(p) => self.satisfied(*p, Reply::Ok),
            Call::GetFuture(p) => {
                if self.of(*p).is_retrieved {
                    Some(Reply::FutureAlreadyRetrieved)
                } else {
                    Some(Reply::Ok)
                }
            }
            Call::Share(p) => {
                let kept = self.of(*p);
                if kept.is_valid && !kept.is_shared {
                    Some(Reply::Ok)
                } else {
                    Some(Reply::NoState)
                }
            }
            Call::WaitFuture(p) => when(!self.of(*p).is_valid, Reply::NoState),
            Call::GetOutcome(p) => when(!self.of(*p).is_valid, Reply::NoState),
            Call::DropAsync(a) => {
                let kept = self.of(*a);
                if !kept.is_valid {
                    Some(Reply::NoState)
                } else {
                    when(!kept.is_launched, Reply::Ok)
                }
            }
            _ => None,
        }
    }

    /// Of a promise that is dropped, or already satisfied.
    fn satisfied(&self, p: ObjectNo, reply: Reply) -> Option<Reply>
        ensures { result ≡ satisfied self.now p reply }
    {
        let kept = self.of(p);
        if kept.is_dropped {
            Some(Reply::NoState)
        } else {
            when(kept.is_set, reply)
        }
    }
}

/// The form that makes the future of `p` ready.
pub fn set_form(p: ObjectNo, outcome: Outcome) -> Form
    ensures { result ≡ set_form p outcome }
{
    let (word, number) = match outcome {
        Outcome::Value(value) => (0, value),
        Outcome::Exception(exception) => (1, i64::from(exception)),
        Outcome::Broken => (2, 0),
    };
    Form::Change(p, Op::Set, word, number, Wanted::Just(Reply::Ok))
}

/// The one act of a callback or a completion.
pub fn small_forms(small: Small) -> Forms
    ensures { result ≡ small_forms small }
{
    match small {
        Small::Release(q, n) => Forms::Two(
            Form::change(q, Op::Release, n, Reply::Ok),
            Form::look(q, Op::Release, n, Reply::Over),
        ),
        Small::NotifyOne(c) => { Forms::One(Form::Change(c, Op::NotifyOne, 0, 0, Wanted::AThread)) }
        Small::NotifyAll(c) => { Forms::One(Form::Change(c, Op::NotifyAll, 0, 0, Wanted::ANumber)) }
    }
}

/// How a wait on the condition ends.
pub fn unblocks(plan: &Plan, c: ObjectNo) -> Forms
    ensures { result ≡ unblocks (scene_of plan.now) c }
{
    Forms::One(Form::change(c, Op::Unblock, 0, Reply::Ok))
}

/// What the function of a task or an async gives.
pub fn function_outcome(object: Option<&Object>) -> Outcome
    ensures { result ≡ function_outcome (option_copied object.entry) }
{
    match object {
        Some(Object::Task { function, .. }) => function.outcome(),
        Some(Object::Async { function, .. }) => function.outcome(),
        _ => Outcome::Broken,
    }
}

/// The ID of call `n` of thread `t`.
fn id_of(t: ThreadNo, n: usize) -> Result<u32, NoMemory>
    ensures { IfOk result (λ id. id ≡ id_of t.0 n) }
{
    let id = u64::from(t.0) * 4096;
    let id = id.checked_add(n as u64).ok_or(NoMemory)?;
    u32::try_from(id).ok().ok_or(NoMemory)
}

/// A change that answers `Ok`.
pub fn done(o: ObjectNo, op: Op) -> Form
    ensures { result ≡ change o op 0 replies.Ok }
{
    Form::change(o, op, 0, Reply::Ok)
}

impl Agenda {
    /// Puts the task of this one act.
    pub fn put_one(&mut self, form: Form) -> Result<(), NoMemory>
        ensures { IfOk result (λ _. self.new ≡ one form ∷ self.old) }
    {
        self.put(Task::Makes(Forms::One(form)))
    }

    /// Puts the task of an act that answers the call.
    fn put_answer(&mut self, form: Form) -> Result<(), NoMemory>
        ensures { IfOk result (λ _. self.new ≡ answer form ++ self.old) }
    {
        self.put(Task::Answers(Forms::One(form)))
    }

    /// Puts the task of one of two acts that answers the call.
    fn put_either(&mut self, first: Form, second: Form) -> Result<(), NoMemory>
        ensures { IfOk result (λ _. self.new ≡ either first second ++ self.old) }
    {
        self.put(Task::Answers(Forms::Two(first, second)))
    }

    /// Puts the tasks of call `n` of thread `t`, or its reply where it is refused.
    pub fn open(
        &mut self,
        plan: &Plan,
        t: ThreadNo,
        n: usize,
        memory: &Memory,
        call: &Call,
    ) -> Result<(), NoMemory>
        ensures { IfOk result (λ _. self.new ≡ opened (scene_of plan.now) t.0 n memory.now call.now ++ self.old) }
    {
        if let Some(reply) = memory.refusal(plan, call) {
            return self.put(Task::Says(reply));
        }
        self.put_future_tasks(plan, memory, call)?;
        self.put_stop_tasks(plan, t, n, memory, call)?;
        self.put_count_tasks(memory, call)?;
        self.put_lock_tasks(call)
    }

    /// Puts the tasks of a call on a mutex.
    fn put_lock_tasks(&mut self, call: &Call) -> Result<(), NoMemory>
        ensures { IfOk result (λ _. self.new ≡ lock_tasks call.now ++ self.old) }
    {
        match call {
            Call::Lock(o) => self.put_answer(done(*o, Op::Lock)),
            Call::LockRecursive(o) => {
                let refused = Form::look(*o, Op::Lock, 0, Reply::MaxLevels);
                self.put_either(done(*o, Op::Lock), refused)
            }
            Call::LockShared(o) => self.put_answer(done(*o, Op::LockShared)),
            Call::TryLock(o) => self.put_try(*o, Op::TryLock),
            Call::TryLockRecursive(o) => self.put_try(*o, Op::TryLock),
            Call::TryLockShared(o) => self.put_try(*o, Op::TryLockShared),
            Call::Unlock(o) => self.put_answer(done(*o, Op::Unlock)),
            Call::UnlockShared(o) => self.put_answer(done(*o, Op::UnlockShared)),
            Call::Get(o, i) => {
                self.put_answer(Form::Look(*o, Op::Get, i64::from(*i), 0, Wanted::ANumber))
            }
            Call::Set(o, i, v) => {
                let wanted = Wanted::Just(Reply::Ok);
                self.put_answer(Form::Change(*o, Op::Set, i64::from(*i), *v, wanted))
            }
            Call::Add(o, i, v) => {
                let i = i64::from(*i);
                let added = Form::Change(*o, Op::Add, i, *v, Wanted::ANumber);
                let overflow = Wanted::Just(Reply::Overflow);
                self.put_either(added, Form::Look(*o, Op::Add, i, *v, overflow))
            }
            Call::LockAll(os) => self.put(Task::LocksFrom(os.copied())),
            Call::TryLockAll(os) => self.put(Task::TriesAll(os.copied(), 0)),
            _ => Ok(()),
        }
    }

    /// Puts a change that answers true, or a look that answers false.
    fn put_try(&mut self, o: ObjectNo, op: Op) -> Result<(), NoMemory>
        ensures { IfOk result (λ _. self.new ≡ either (change o op 0 replies.True) (look o op 0 replies.False) ++ self.old) }
    {
        let taken = Form::change(o, op, 0, Reply::True);
        self.put_either(taken, Form::look(o, op, 0, Reply::False))
    }

    /// Puts a look that answers true or false.
    fn put_test(&mut self, o: ObjectNo, op: Op) -> Result<(), NoMemory>
        ensures { IfOk result (λ _. self.new ≡ either (look o op 0 replies.True) (look o op 0 replies.False) ++ self.old) }
    {
        let holds = Form::look(o, op, 0, Reply::True);
        self.put_either(holds, Form::look(o, op, 0, Reply::False))
    }

    /// Puts the tasks of a call on a semaphore, a latch, a barrier or a once flag.
    fn put_count_tasks(&mut self, memory: &Memory, call: &Call) -> Result<(), NoMemory>
        ensures { IfOk result (λ _. self.new ≡ count_tasks memory.now call.now ++ self.old) }
    {
        match call {
            Call::Release(q, n) => {
                let released = Form::change(*q, Op::Release, *n, Reply::Ok);
                self.put_either(released, Form::look(*q, Op::Release, *n, Reply::Over))
            }
            Call::Acquire(q) => self.put_answer(done(*q, Op::Acquire)),
            Call::TryAcquire(q) => self.put_try(*q, Op::TryAcquire),
            Call::CountDown(l, n) => {
                self.put_answer(Form::change(*l, Op::CountDown, *n, Reply::Ok))
            }
            Call::WaitLatch(l) => self.put_answer(Form::look(*l, Op::Wait, 0, Reply::Ok)),
            Call::TryWait(l) => self.put_test(*l, Op::TryWait),
            Call::ArriveAndWaitLatch(l) => {
                self.put_answer(Form::look(*l, Op::Wait, 0, Reply::Ok))?;
                self.put_one(Form::change(*l, Op::CountDown, 1, Reply::Ok))
            }
            Call::Arrive(b, n) => self.put(Task::Arrives(*b, *n)),
            Call::WaitBarrier(b) => {
                let phase = memory.of(*b).arrival.unwrap_or(0);
                let wanted = Wanted::Just(Reply::Ok);
                self.put_answer(Form::Look(*b, Op::Wait, phase, 0, wanted))
            }
            Call::ArriveAndWait(b) => self.put(Task::ArrivesAndWaits(*b)),
            Call::ArriveAndDrop(b) => self.put(Task::ArrivesAndDrops(*b)),
            Call::CallOnceReturn(o) => {
                self.put(Task::CallsOnce(*o, done(*o, Op::Finish), Reply::Returned))
            }
            Call::CallOnceThrow(o, e) => {
                let failed = Form::change(*o, Op::Fail, *e, Reply::Ok);
                self.put(Task::CallsOnce(*o, failed, Reply::Threw(*e)))
            }
            _ => Ok(()),
        }
    }

    /// Puts the four acts of a wait.
    pub fn put_waits(&mut self, plan: &Plan, c: ObjectNo, m: ObjectNo) -> Result<(), NoMemory>
        ensures { IfOk result (λ _. self.new ≡ waits (scene_of plan.now) c m ++ self.old) }
    {
        self.put_one(done(m, Op::Lock))?;
        self.put(Task::Makes(unblocks(plan, c)))?;
        self.put_one(done(m, Op::Unlock))?;
        self.put_one(done(c, Op::Enter))
    }

    /// Puts the tasks of a call on a condition or a stop state.
    fn put_stop_tasks(
        &mut self,
        plan: &Plan,
        t: ThreadNo,
        n: usize,
        memory: &Memory,
        call: &Call,
    ) -> Result<(), NoMemory>
        ensures { IfOk result (λ _. self.new ≡ stop_tasks (scene_of plan.now) t.0 n memory.now call.now ++ self.old) }
    {
        match call {
            Call::WaitCondition(c, m) => {
                self.put(Task::Says(Reply::Ok))?;
                self.put_waits(plan, *c, *m)
            }
            Call::WaitPredicate(c, m, test) => self.put(Task::Tests(*c, *m, *test)),
            Call::WaitStop(c, m, stop, test) => {
                self.put(Task::RegistersWait(StopWait {
                    condition: *c,
                    mutex: *m,
                    stop: *stop,
                    test: *test,
                    id: id_of(t, n)?,
                    queued: false,
                }))
            }
            Call::NotifyOne(c) => {
                self.put_answer(Form::Change(*c, Op::NotifyOne, 0, 0, Wanted::AThread))
            }
            Call::NotifyAll(c) => {
                self.put_answer(Form::Change(*c, Op::NotifyAll, 0, 0, Wanted::ANumber))
            }
            Call::RequestStop(st) => self.put(Task::Requests(*st, true)),
            Call::StopRequested(st) => self.put_test(*st, Op::StopRequested),
            Call::StopPossible(st) => self.put_test(*st, Op::StopPossible),
            Call::Another(st) => self.put_answer(done(*st, Op::Another)),
            Call::DropSource(st) => self.put_answer(done(*st, Op::Drop)),
            Call::Register(k) => self.put_registers(plan, id_of(t, n)?, *k),
            Call::Deregister(k) => self.put_deregisters(plan, memory, *k),
            _ => Ok(()),
        }
    }

    /// Puts the task of `register`.
    fn put_registers(&mut self, plan: &Plan, id: u32, k: CallbackNo) -> Result<(), NoMemory>
        ensures { IfOk result (λ _. self.new ≡ registers (scene_of plan.now) id k (slice_get (scene_of plan.now).callbacks k.0) ++ self.old) }
    {
        match plan.callback(k) {
            Some(callback) => self.put(Task::Registers(callback.stop, id)),
            None => Ok(()),
        }
    }

    /// Puts the task of `deregister`.
    fn put_deregisters(
        &mut self,
        plan: &Plan,
        memory: &Memory,
        k: CallbackNo,
    ) -> Result<(), NoMemory>
        ensures { IfOk result (λ _. self.new ≡ deregisters (slice_get (scene_of plan.now).callbacks k.0) (held_id (scene_of plan.now) memory.now.held k) ++ self.old) }
    {
        match (plan.callback(k), memory.held_id(plan, k)) {
            (Some(callback), Some(id)) => {
                let removed = Form::change(callback.stop, Op::Deregister, id, Reply::Removed);
                let ran = Form::change(callback.stop, Op::Deregister, id, Reply::Ran);
                self.put_either(removed, ran)
            }
            _ => Ok(()),
        }
    }

    /// Puts the tasks of a call on a future, a promise or a thread.
    fn put_future_tasks(
        &mut self,
        plan: &Plan,
        memory: &Memory,
        call: &Call,
    ) -> Result<(), NoMemory>
        ensures { IfOk result (λ _. self.new ≡ future_tasks (scene_of plan.now) memory.now call.now ++ self.old) }
    {
        match call {
            Call::SetValue(p, v) => self.put_answer(set_form(*p, Outcome::Value(*v))),
            Call::SetException(p, e) => self.put_answer(set_form(*p, Outcome::Exception(*e))),
            Call::Invoke(p) => { self.put_answer(set_form(*p, function_outcome(plan.object(*p)))) }
            Call::DropPromise(p) => self.put_answer(set_form(*p, Outcome::Broken)),
            Call::WaitFuture(p) => self.put_readies(plan, memory, *p, true),
            Call::GetOutcome(p) => self.put_readies(plan, memory, *p, false),
            Call::DropAsync(a) => {
                self.put_look(Form::Look(*a, Op::Ready, 0, 0, Wanted::AnOutcome), true)
            }
            Call::Start(u) => {
                let begun = Form::Does(Control::Start(*u, true));
                self.put_either(begun, Form::Does(Control::Start(*u, false)))
            }
            Call::Join(u) => self.put_answer(Form::Does(Control::Join(*u))),
            Call::Launch(a) => match plan.object(*a) {
                Some(Object::Async { policy, thread, .. }) => {
                    self.put(Task::Launches(*a, *thread, *policy))
                }
                _ => Ok(()),
            },
            _ => Ok(()),
        }
    }

    /// Puts a look at an outcome, whose reply is the call's, or which a wait answers with `Ok`.
    fn put_look(&mut self, form: Form, is_wait: bool) -> Result<(), NoMemory>
        ensures { IfOk result (λ _. self.new ≡ looks is_wait form ++ self.old) }
    {
        if is_wait {
            self.put(Task::Says(Reply::Ok))?;
            self.put_one(form)
        } else {
            self.put_answer(form)
        }
    }

    /// Puts a look at an outcome, after the deferred function where it hasn't run.
    fn put_readies(
        &mut self,
        plan: &Plan,
        memory: &Memory,
        p: ObjectNo,
        is_wait: bool,
    ) -> Result<(), NoMemory>
        ensures { IfOk result (λ _. self.new ≡ readies (scene_of plan.now) memory.now p (looks is_wait) ++ self.old) }
    {
        if memory.of(p).is_unrun {
            let outcome = function_outcome(plan.object(p));
            self.put_look(
                Form::look(p, Op::Ready, 0, Reply::Outcome(outcome)),
                is_wait,
            )?;
            self.put_one(set_form(p, outcome))?;
            self.put_one(done(p, Op::Run))
        } else {
            self.put_look(Form::Look(p, Op::Ready, 0, 0, Wanted::AnOutcome), is_wait)
        }
    }
}
