ghost use Rattle.std.specs.Prelude.{◌≡◌, ◌∷◌, [], ℤ, ◌<◌, List, map, drop, Option, Some, None, IfSome, slice_get};
ghost use Rattle.cx_script.specs.Earlier.{word_in, number_in};
ghost use Rattle.cx_script.specs.Faults.{count_in};
ghost use Rattle.cx_script.specs.Script.{place_in, policy_of, relation_of, declared_of, call_of, predicate_at, waits_on, meets_at, drops_of, if_recursive, thread_at, object_at, callback_at};
ghost use Rattle.cx_scenario.specs.Views.{filled, values_seen, names_seen};

use crate::names::{Names, number_in};
use crate::said::{Said, number_at, word_at, word_in};
use cx_index::NameIndex;
use cx_names::{CallbackNo, ObjectNo, ThreadNo};
use cx_scene::{Action, Call, Few, Function, Policy, Predicate, Relation, Small};
use cx_script::Declared;
use cx_text::{Form, Made, Value};

/// The count at place `i` after the head, where it fits 32 bits.
fn natural_at(values: &[Value<'_>], i: usize) -> Option<u32>
    ensures { IfSome result (λ n. n ≡ count_in (number_in (slice_get (values_seen values.now) i))) }
{
    let n = number_at(values, i);
    if 0 <= n && n <= u32::MAX as i128 {
        Some(n as u32)
    } else {
        None
    }
}

/// The number at place `i` after the head, where it fits 64 bits.
fn signed_at(values: &[Value<'_>], i: usize) -> Option<i64>
    ensures { IfSome result (λ n. n ≡ number_in (slice_get (values_seen values.now) i)) }
{
    let n = number_at(values, i);
    if i64::MIN as i128 <= n && n <= i64::MAX as i128 {
        Some(n as i64)
    } else {
        None
    }
}

/// The values from place `i` on.
fn from_place<'b, 'a>(values: &'b [Value<'a>], i: usize) -> &'b [Value<'a>]
    ensures { values_seen result.now ≡ drop i (values_seen values.now) }
{
    let place = i.min(values.len());
    let (_, after) = values.split_at(place);
    after
}

/// The numbers of up to five names.
fn few_in(names: &NameIndex, values: &[Value<'_>]) -> Option<Few>
    ensures { IfSome result (λ few. few ≡ map (place_in names.now) (map (λ v. word_in (Some v)) (values_seen values.now))) }
{
    let mut few = Few::new();
    for value in values {
        if few.len() >= 5 {
            return None;
        }
        few.push(number_in(names, word_in(value))?);
    }
    Some(few)
}

fn policy_of(word: &[u8]) -> Policy
    ensures { result ≡ policy_of word.now }
{
    if b"async".as_slice() == word {
        Policy::Async
    } else if b"deferred".as_slice() == word {
        Policy::Deferred
    } else {
        Policy::Both
    }
}

fn relation_of(word: &[u8]) -> Relation
    ensures { result ≡ relation_of word.now }
{
    if b"<".as_slice() == word {
        Relation::Less
    } else if b"<=".as_slice() == word {
        Relation::AtMost
    } else if b"=".as_slice() == word {
        Relation::Equal
    } else if b"!=".as_slice() == word {
        Relation::Unequal
    } else if b">=".as_slice() == word {
        Relation::AtLeast
    } else {
        Relation::Greater
    }
}

/// The test from place `i` on.
fn predicate_at(line: &Said<'_>, i: usize) -> Option<Predicate>
    requires { i < 4 }
    ensures { IfSome result (λ p. p ≡ predicate_at (filled line.now) i) }
{
    let number = natural_at(&line.values, i)?;
    let relation = relation_of(word_at(&line.values, i + 1));
    let value = signed_at(&line.values, i + 2)?;
    Some(Predicate {
        number,
        relation,
        value,
    })
}

impl Names {
    fn thread_at(&self, line: &Said<'_>, i: usize) -> Option<ThreadNo>
        ensures { IfSome result (λ t. t ≡ thread_at (names_seen self.now) (filled line.now) i) }
    {
        Some(ThreadNo(number_in(&self.threads, word_at(&line.values, i))?))
    }

    fn object_at(&self, line: &Said<'_>, i: usize) -> Option<ObjectNo>
        ensures { IfSome result (λ o. o ≡ object_at (names_seen self.now) (filled line.now) i) }
    {
        Some(ObjectNo(number_in(&self.objects, word_at(&line.values, i))?))
    }

    fn callback_at(&self, line: &Said<'_>, i: usize) -> Option<CallbackNo>
        ensures { IfSome result (λ k. k ≡ callback_at (names_seen self.now) (filled line.now) i) }
    {
        Some(CallbackNo(number_in(&self.callbacks, word_at(&line.values, i))?))
    }

    /// What a declaration says of its name; `None` where the line declares nothing, or where a
    /// number is too large.
    pub fn declared_of(&self, line: &Said<'_>) -> Option<Declared>
        ensures { IfSome result (λ d. declared_of (names_seen self.now) (filled line.now) line.now.form ≡ Some d) }
    {
        let values = line.values.as_slice();
        match line.form {
            Form::Thread => Some(Declared::Thread),
            Form::JThread => Some(Declared::JThread),
            Form::AsyncReturn => Some(Declared::Async(
                policy_of(word_at(values, 1)),
                Function::Return(signed_at(values, 3)?),
            )),
            Form::AsyncThrow => Some(Declared::Async(
                policy_of(word_at(values, 1)),
                Function::Throw(natural_at(values, 3)?),
            )),
            Form::Mutex => Some(Declared::Mutex(natural_at(values, 1)?)),
            Form::Recursive => Some(Declared::Recursive),
            Form::Shared => Some(Declared::Shared),
            Form::Semaphore => Some(Declared::Semaphore(
                natural_at(values, 1)?,
                natural_at(values, 2)?,
            )),
            Form::Latch => Some(Declared::Latch(natural_at(values, 1)?)),
            Form::Barrier => Some(Declared::Barrier(natural_at(values, 1)?, None)),
            Form::BarrierRelease => Some(Declared::Barrier(
                natural_at(values, 1)?,
                Some(Small::Release(self.object_at(line, 3)?, natural_at(values, 4)?)),
            )),
            Form::BarrierNotifyOne => Some(Declared::Barrier(
                natural_at(values, 1)?,
                Some(Small::NotifyOne(self.object_at(line, 3)?)),
            )),
            Form::BarrierNotifyAll => Some(Declared::Barrier(
                natural_at(values, 1)?,
                Some(Small::NotifyAll(self.object_at(line, 3)?)),
            )),
            Form::Once => Some(Declared::Once),
            Form::Condition => Some(Declared::Condition),
            Form::Stop => Some(Declared::Stop(few_in(&self.threads, from_place(values, 1))?)),
            Form::CallbackRelease => Some(Declared::Callback(
                self.object_at(line, 1)?,
                Action::Small(Small::Release(self.object_at(line, 3)?, natural_at(values, 4)?)),
            )),
            Form::CallbackNotifyOne => Some(Declared::Callback(
                self.object_at(line, 1)?,
                Action::Small(Small::NotifyOne(self.object_at(line, 3)?)),
            )),
            Form::CallbackNotifyAll => Some(Declared::Callback(
                self.object_at(line, 1)?,
                Action::Small(Small::NotifyAll(self.object_at(line, 3)?)),
            )),
            Form::CallbackDeregister => Some(Declared::Callback(
                self.object_at(line, 1)?,
                Action::Deregister,
            )),
            Form::Promise => Some(Declared::Promise(
                self.thread_at(line, 1)?,
                self.thread_at(line, 2)?,
            )),
            Form::SharedPromise => Some(Declared::SharedPromise(
                self.thread_at(line, 1)?,
                few_in(&self.threads, from_place(values, 2))?,
            )),
            Form::TaskReturn => Some(Declared::Task(
                self.thread_at(line, 1)?,
                self.thread_at(line, 2)?,
                Function::Return(signed_at(values, 4)?),
            )),
            Form::TaskThrow => Some(Declared::Task(
                self.thread_at(line, 1)?,
                self.thread_at(line, 2)?,
                Function::Throw(natural_at(values, 4)?),
            )),
            _ => None,
        }
    }

    /// The call of a line whose subject is of this kind; `None` where the line is no call, or
    /// where a number is too large.
    pub fn call_of(&self, made: Option<Made>, line: &Said<'_>) -> Option<Call>
        ensures { IfSome result (λ c. call_of (names_seen self.now) made (filled line.now) line.now.form ≡ Some c) }
    {
        let values = line.values.as_slice();
        match line.form {
            Form::Register => Some(Call::Register(self.callback_at(line, 0)?)),
            Form::Deregister => Some(Call::Deregister(self.callback_at(line, 0)?)),
            Form::Start => Some(Call::Start(self.thread_at(line, 0)?)),
            Form::Join => Some(Call::Join(self.thread_at(line, 0)?)),
            Form::LockAll => Some(Call::LockAll(few_in(&self.objects, values)?)),
            Form::TryLockAll => Some(Call::TryLockAll(few_in(&self.objects, values)?)),
            _ => self.object_call_of(made, self.object_at(line, 0)?, line),
        }
    }

    /// The call of a line whose subject is this object, of this kind.
    fn object_call_of(&self, made: Option<Made>, o: ObjectNo, line: &Said<'_>) -> Option<Call>
        requires { o ≡ object_at (names_seen self.now) (filled line.now) 0 }
        ensures { IfSome result (λ c. call_of (names_seen self.now) made (filled line.now) line.now.form ≡ Some c) }
    {
        let values = line.values.as_slice();
        match line.form {
            Form::Lock => Some(if matches!(made, Some(Made::Recursive)) {
                Call::LockRecursive(o)
            } else {
                Call::Lock(o)
            }),
            Form::LockShared => Some(Call::LockShared(o)),
            Form::TryLock => Some(if matches!(made, Some(Made::Recursive)) {
                Call::TryLockRecursive(o)
            } else {
                Call::TryLock(o)
            }),
            Form::TryLockShared => Some(Call::TryLockShared(o)),
            Form::Unlock => Some(Call::Unlock(o)),
            Form::UnlockShared => Some(Call::UnlockShared(o)),
            Form::GetNumber => Some(Call::Get(o, natural_at(values, 1)?)),
            Form::SetNumber => Some(Call::Set(o, natural_at(values, 1)?, signed_at(values, 2)?)),
            Form::AddNumber => Some(Call::Add(o, natural_at(values, 1)?, signed_at(values, 2)?)),
            Form::Release => Some(Call::Release(o, natural_at(values, 1)?)),
            Form::Acquire => Some(Call::Acquire(o)),
            Form::TryAcquire => Some(Call::TryAcquire(o)),
            Form::CountDown => Some(Call::CountDown(o, natural_at(values, 1)?)),
            Form::Wait => Some(wait_on(made, o)),
            Form::TryWait => Some(Call::TryWait(o)),
            Form::ArriveAndWait => Some(meet_at(made, o)),
            Form::Arrive => Some(Call::Arrive(o, natural_at(values, 1)?)),
            Form::ArriveAndDrop => Some(Call::ArriveAndDrop(o)),
            Form::CallOnceReturn => Some(Call::CallOnceReturn(o)),
            Form::CallOnceThrow => Some(Call::CallOnceThrow(o, natural_at(values, 2)?)),
            Form::WaitCondition => Some(Call::WaitCondition(o, self.object_at(line, 1)?)),
            Form::WaitPredicate => Some(Call::WaitPredicate(
                o,
                self.object_at(line, 1)?,
                predicate_at(line, 2)?,
            )),
            Form::WaitStop => Some(Call::WaitStop(
                o,
                self.object_at(line, 1)?,
                self.object_at(line, 2)?,
                predicate_at(line, 3)?,
            )),
            Form::NotifyOne => Some(Call::NotifyOne(o)),
            Form::NotifyAll => Some(Call::NotifyAll(o)),
            Form::RequestStop => Some(Call::RequestStop(o)),
            Form::StopRequested => Some(Call::StopRequested(o)),
            Form::StopPossible => Some(Call::StopPossible(o)),
            Form::Another => Some(Call::Another(o)),
            Form::Drop => Some(drop_of(made, o)),
            Form::SetValue => Some(Call::SetValue(o, signed_at(values, 1)?)),
            Form::SetException => Some(Call::SetException(o, natural_at(values, 1)?)),
            Form::Invoke => Some(Call::Invoke(o)),
            Form::GetFuture => Some(Call::GetFuture(o)),
            Form::Share => Some(Call::Share(o)),
            Form::GetOutcome => Some(Call::GetOutcome(o)),
            Form::Launch => Some(Call::Launch(o)),
            _ => None,
        }
    }
}

fn wait_on(made: Option<Made>, o: ObjectNo) -> Call
    ensures { result ≡ waits_on made o }
{
    match made {
        Some(Made::Latch) => Call::WaitLatch(o),
        Some(Made::Barrier) => Call::WaitBarrier(o),
        _ => Call::WaitFuture(o),
    }
}

fn meet_at(made: Option<Made>, o: ObjectNo) -> Call
    ensures { result ≡ meets_at made o }
{
    match made {
        Some(Made::Latch) => Call::ArriveAndWaitLatch(o),
        _ => Call::ArriveAndWait(o),
    }
}

fn drop_of(made: Option<Made>, o: ObjectNo) -> Call
    ensures { result ≡ drops_of made o }
{
    match made {
        Some(Made::Stop) => Call::DropSource(o),
        Some(Made::Async) => Call::DropAsync(o),
        _ => Call::DropPromise(o),
    }
}
