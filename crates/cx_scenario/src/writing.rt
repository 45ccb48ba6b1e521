ghost use Rattle.std.specs.Prelude.{◌≡◌, ◌++◌, ◌∷◌, [], ℕ, List, map, filter, drop, OnOk, IfOk};
ghost use Rattle.std.specs.List.{flat_map};
ghost use Rattle.cx_text.specs.declared.form.Form.TheVariants as forms;
ghost use Rattle.cx_text.specs.Views.{seen};
ghost use Rattle.cx_text.specs.Words.{AWord, ANumber};
ghost use Rattle.cx_script.specs.Script.{shown, line, line_of_declaration, line_of_call, threads_in, object, thread, callback, with_small, with_function, policy_word, relation_word, number, name_at, body_lines, bodies_from, is_thread, body_of_main};
ghost use Rattle.cx_scenario.specs.Views.{values_seen};
ghost use Rattle.cx_scenario.specs.Whole.{roll_seen, declaration_seen, declaration_line, text_lines};

use crate::declaration::Declaration;
use crate::roll::{Roll, is_thread, name_at};
use cx_names::{CallbackNo, NoMemory, ObjectNo, ThreadNo};
use cx_scene::{Action, Call, Few, Function, Policy, Relation, Small};
use cx_script::Declared;
use cx_text::{Form, Value, put_form};
use std::alloc::Global;

/// Adds a line.
#[tactic(auto, unfolding(cx_script::specs::Script::shown))]
fn put_line(out: &mut Vec<u8>, form: Form, values: &[Value<'_>]) -> Result<(), NoMemory>
    ensures { OnOk result (out.new.items ≡ out.old.items ++ shown (line form (values_seen values.now))) }
{
    put_form(out, form, values)?;
    Ok(())
}

impl Roll {
    fn object(&self, o: ObjectNo) -> Value<'_>
        ensures { seen result ≡ object (roll_seen self.now) o }
    {
        Value::Word(name_at(&self.objects, o.0))
    }

    fn thread(&self, t: ThreadNo) -> Value<'_>
        ensures { seen result ≡ thread (roll_seen self.now) t }
    {
        Value::Word(name_at(&self.threads, t.0))
    }

    fn callback(&self, k: CallbackNo) -> Value<'_>
        ensures { seen result ≡ callback (roll_seen self.now) k }
    {
        Value::Word(name_at(&self.callbacks, k.0))
    }
}

fn number<'b>(n: u32) -> Value<'b>
    ensures { seen result ≡ number n }
{
    Value::Number(n as i128)
}

fn signed<'b>(n: &i64) -> Value<'b>
    ensures { seen result ≡ ANumber n.now }
{
    Value::Number(*n as i128)
}

fn policy_word(policy: Policy) -> &'static [u8]
    ensures { result.now ≡ policy_word policy }
{
    match policy {
        Policy::Async => b"async",
        Policy::Deferred => b"deferred",
        Policy::Both => b"both",
    }
}

fn relation_word(relation: Relation) -> &'static [u8]
    ensures { result.now ≡ relation_word relation }
{
    match relation {
        Relation::Less => b"<",
        Relation::AtMost => b"<=",
        Relation::Equal => b"=",
        Relation::Unequal => b"!=",
        Relation::AtLeast => b">=",
        Relation::Greater => b">",
    }
}

/// Adds a line that ends with the act of a callback or a completion, in one of three forms.
fn put_small<'x>(
    out: &mut Vec<u8>,
    roll: &'x Roll,
    release: Form,
    one: Form,
    all: Form,
    first: Value<'x>,
    second: Value<'x>,
    small: Small,
) -> Result<(), NoMemory>
    ensures { OnOk result (out.new.items ≡ out.old.items ++ shown (with_small (roll_seen roll.now) release one all (seen first.entry ∷ seen second.entry ∷ []) small)) }
{
    match small {
        Small::Release(q, n) => put_line(
            out,
            release,
            &[
                first,
                second,
                Value::Word(b"release"),
                roll.object(q),
                number(n),
            ],
        ),
        Small::NotifyOne(c) => put_line(
            out,
            one,
            &[first, second, Value::Word(b"notify_one"), roll.object(c)],
        ),
        Small::NotifyAll(c) => put_line(
            out,
            all,
            &[first, second, Value::Word(b"notify_all"), roll.object(c)],
        ),
    }
}

/// Adds the line of an async.
fn put_async(
    out: &mut Vec<u8>,
    name: &[u8],
    policy: Policy,
    function: &Function,
) -> Result<(), NoMemory>
    ensures { OnOk result (out.new.items ≡ out.old.items ++ shown (with_function forms.AsyncReturn forms.AsyncThrow (AWord name.now ∷ AWord (policy_word policy) ∷ []) function.now)) }
{
    let policy = policy_word(policy);
    match function {
        Function::Return(v) => {
            let value = signed(v);
            put_line(
                out,
                Form::AsyncReturn,
                &[
                    Value::Word(name),
                    Value::Word(policy),
                    Value::Word(b"return"),
                    value,
                ],
            )
        }
        Function::Throw(e) => put_line(
            out,
            Form::AsyncThrow,
            &[
                Value::Word(name),
                Value::Word(policy),
                Value::Word(b"throw"),
                number(*e),
            ],
        ),
    }
}

/// Adds the line of a task.
fn put_task<'x>(
    out: &mut Vec<u8>,
    roll: &'x Roll,
    name: &'x [u8],
    owner: ThreadNo,
    reader: ThreadNo,
    function: Function,
) -> Result<(), NoMemory>
    ensures { OnOk result (out.new.items ≡ out.old.items ++ shown (with_function forms.TaskReturn forms.TaskThrow (AWord name.now ∷ thread (roll_seen roll.now) owner ∷ thread (roll_seen roll.now) reader ∷ []) function)) }
{
    let name = Value::Word(name);
    match function {
        Function::Return(v) => put_line(
            out,
            Form::TaskReturn,
            &[
                name,
                roll.thread(owner),
                roll.thread(reader),
                Value::Word(b"return"),
                signed(&v),
            ],
        ),
        Function::Throw(e) => put_line(
            out,
            Form::TaskThrow,
            &[
                name,
                roll.thread(owner),
                roll.thread(reader),
                Value::Word(b"throw"),
                number(e),
            ],
        ),
    }
}

/// Adds a line that ends with names.
fn put_names<'x>(
    alloc: Global,
    out: &mut Vec<u8>,
    form: Form,
    front: &[Value<'x>],
    names: &'x [Vec<u8>],
    few: &Few,
) -> Result<(), NoMemory>
    ensures { OnOk result (out.new.items ≡ out.old.items ++ shown (line form (values_seen front.now ++ map (λ t. AWord (name_at (map (λ n. n.items) names.now) t)) few.now))) }
{
    let mut values: Vec<Value<'x>> = Vec::new(alloc);
    values.extend_from_slice(front)?;
    for t in few.as_slice() {
        values.push(Value::Word(name_at(names, *t)))?;
    }
    put_line(out, form, &values)
}

/// Adds the line of a declaration.
fn put_declaration<'x>(
    alloc: Global,
    out: &mut Vec<u8>,
    roll: &'x Roll,
    name: &'x [u8],
    what: &Declared,
) -> Result<(), NoMemory>
    ensures { OnOk result (out.new.items ≡ out.old.items ++ shown (line_of_declaration (roll_seen roll.now) name.now what.now)) }
{
    let own = Value::Word(name);
    match what {
        Declared::Thread => put_line(out, Form::Thread, &[own]),
        Declared::JThread => put_line(out, Form::JThread, &[own]),
        Declared::Async(policy, function) => put_async(out, name, *policy, function),
        Declared::Mutex(numbers) => put_line(out, Form::Mutex, &[own, number(*numbers)]),
        Declared::Recursive => put_line(out, Form::Recursive, &[own]),
        Declared::Shared => put_line(out, Form::Shared, &[own]),
        Declared::Semaphore(count, max) => put_line(
            out,
            Form::Semaphore,
            &[own, number(*count), number(*max)],
        ),
        Declared::Latch(count) => put_line(out, Form::Latch, &[own, number(*count)]),
        Declared::Barrier(count, small) => match small {
            None => put_line(out, Form::Barrier, &[own, number(*count)]),
            Some(small) => put_small(
                out,
                roll,
                Form::BarrierRelease,
                Form::BarrierNotifyOne,
                Form::BarrierNotifyAll,
                own,
                number(*count),
                *small,
            ),
        },
        Declared::Once => put_line(out, Form::Once, &[own]),
        Declared::Condition => put_line(out, Form::Condition, &[own]),
        Declared::Stop(holders) => put_names(
            alloc,
            out,
            Form::Stop,
            &[own],
            &roll.threads,
            holders,
        ),
        Declared::Callback(stop, action) => match action {
            Action::Small(small) => put_small(
                out,
                roll,
                Form::CallbackRelease,
                Form::CallbackNotifyOne,
                Form::CallbackNotifyAll,
                own,
                roll.object(*stop),
                *small,
            ),
            Action::Deregister => put_line(
                out,
                Form::CallbackDeregister,
                &[own, roll.object(*stop), Value::Word(b"deregister"), own],
            ),
        },
        Declared::Promise(owner, reader) => put_line(
            out,
            Form::Promise,
            &[own, roll.thread(*owner), roll.thread(*reader)],
        ),
        Declared::SharedPromise(owner, readers) => put_names(
            alloc,
            out,
            Form::SharedPromise,
            &[own, roll.thread(*owner)],
            &roll.threads,
            readers,
        ),
        Declared::Task(owner, reader, function) => put_task(
            out, roll, name, *owner, *reader, *function,
        ),
    }
}

/// Adds the line of a call.
fn put_call(alloc: Global, out: &mut Vec<u8>, roll: &Roll, call: &Call) -> Result<(), NoMemory>
    ensures { OnOk result (out.new.items ≡ out.old.items ++ shown (line_of_call (roll_seen roll.now) call.now)) }
{
    match call {
        Call::Lock(o) => put_line(out, Form::Lock, &[roll.object(*o)]),
        Call::LockRecursive(o) => put_line(out, Form::Lock, &[roll.object(*o)]),
        Call::LockShared(o) => put_line(out, Form::LockShared, &[roll.object(*o)]),
        Call::TryLock(o) => put_line(out, Form::TryLock, &[roll.object(*o)]),
        Call::TryLockRecursive(o) => put_line(out, Form::TryLock, &[roll.object(*o)]),
        Call::TryLockShared(o) => put_line(out, Form::TryLockShared, &[roll.object(*o)]),
        Call::Unlock(o) => put_line(out, Form::Unlock, &[roll.object(*o)]),
        Call::UnlockShared(o) => put_line(out, Form::UnlockShared, &[roll.object(*o)]),
        Call::Acquire(o) => put_line(out, Form::Acquire, &[roll.object(*o)]),
        Call::TryAcquire(o) => put_line(out, Form::TryAcquire, &[roll.object(*o)]),
        Call::WaitFuture(o) => put_line(out, Form::Wait, &[roll.object(*o)]),
        Call::WaitLatch(o) => put_line(out, Form::Wait, &[roll.object(*o)]),
        Call::WaitBarrier(o) => put_line(out, Form::Wait, &[roll.object(*o)]),
        Call::TryWait(o) => put_line(out, Form::TryWait, &[roll.object(*o)]),
        Call::ArriveAndWait(o) => put_line(out, Form::ArriveAndWait, &[roll.object(*o)]),
        Call::ArriveAndWaitLatch(o) => put_line(out, Form::ArriveAndWait, &[roll.object(*o)]),
        Call::ArriveAndDrop(o) => put_line(out, Form::ArriveAndDrop, &[roll.object(*o)]),
        Call::NotifyOne(o) => put_line(out, Form::NotifyOne, &[roll.object(*o)]),
        Call::NotifyAll(o) => put_line(out, Form::NotifyAll, &[roll.object(*o)]),
        Call::RequestStop(o) => put_line(out, Form::RequestStop, &[roll.object(*o)]),
        Call::StopRequested(o) => put_line(out, Form::StopRequested, &[roll.object(*o)]),
        Call::StopPossible(o) => put_line(out, Form::StopPossible, &[roll.object(*o)]),
        Call::Another(o) => put_line(out, Form::Another, &[roll.object(*o)]),
        Call::DropPromise(o) => put_line(out, Form::Drop, &[roll.object(*o)]),
        Call::DropSource(o) => put_line(out, Form::Drop, &[roll.object(*o)]),
        Call::DropAsync(o) => put_line(out, Form::Drop, &[roll.object(*o)]),
        Call::Invoke(o) => put_line(out, Form::Invoke, &[roll.object(*o)]),
        Call::GetFuture(o) => put_line(out, Form::GetFuture, &[roll.object(*o)]),
        Call::Share(o) => put_line(out, Form::Share, &[roll.object(*o)]),
        Call::GetOutcome(o) => put_line(out, Form::GetOutcome, &[roll.object(*o)]),
        Call::Launch(o) => put_line(out, Form::Launch, &[roll.object(*o)]),
        Call::Get(o, n) => put_line(out, Form::GetNumber, &[roll.object(*o), number(*n)]),
        Call::Release(o, n) => put_line(out, Form::Release, &[roll.object(*o), number(*n)]),
        Call::CountDown(o, n) => put_line(out, Form::CountDown, &[roll.object(*o), number(*n)]),
        Call::Arrive(o, n) => put_line(out, Form::Arrive, &[roll.object(*o), number(*n)]),
        Call::SetException(o, n) => put_line(
            out,
            Form::SetException,
            &[roll.object(*o), number(*n)],
        ),
        Call::Set(o, n, v) => put_line(
            out,
            Form::SetNumber,
            &[roll.object(*o), number(*n), signed(v)],
        ),
        Call::Add(o, n, v) => put_line(
            out,
            Form::AddNumber,
            &[roll.object(*o), number(*n), signed(v)],
        ),
        Call::SetValue(o, v) => put_line(out, Form::SetValue, &[roll.object(*o), signed(v)]),
        Call::LockAll(os) => put_names(alloc, out, Form::LockAll, &[], &roll.objects, os),
        Call::TryLockAll(os) => put_names(alloc, out, Form::TryLockAll, &[], &roll.objects, os),
        Call::CallOnceReturn(o) => put_line(
            out,
            Form::CallOnceReturn,
            &[roll.object(*o), Value::Word(b"return")],
        ),
        Call::CallOnceThrow(o, e) => put_line(
            out,
            Form::CallOnceThrow,
            &[roll.object(*o), Value::Word(b"throw"), number(*e)],
        ),
        Call::WaitCondition(c, x) => put_line(
            out,
            Form::WaitCondition,
            &[roll.object(*c), roll.object(*x)],
        ),
        Call::WaitPredicate(c, m, p) => put_line(
            out,
            Form::WaitPredicate,
            &[
                roll.object(*c),
                roll.object(*m),
                number(p.number),
                Value::Word(relation_word(p.relation)),
                signed(&p.value),
            ],
        ),
        Call::WaitStop(c, m, st, p) => put_line(
            out,
            Form::WaitStop,
            &[
                roll.object(*c),
                roll.object(*m),
                roll.object(*st),
                number(p.number),
                Value::Word(relation_word(p.relation)),
                signed(&p.value),
            ],
        ),
        Call::Register(k) => put_line(out, Form::Register, &[roll.callback(*k)]),
        Call::Deregister(k) => put_line(out, Form::Deregister, &[roll.callback(*k)]),
        Call::Start(t) => put_line(out, Form::Start, &[roll.thread(*t)]),
        Call::Join(t) => put_line(out, Form::Join, &[roll.thread(*t)]),
    }
}

/// Adds a body: its first line, its calls and its end.
fn put_body(
    alloc: Global,
    out: &mut Vec<u8>,
    roll: &Roll,
    form: Form,
    values: &[Value<'_>],
    calls: &[Call],
) -> Result<(), NoMemory>
    ensures { OnOk result (out.new.items ≡ out.old.items ++ flat_map shown (body_lines (roll_seen roll.now) (line form (values_seen values.now)) calls.now)) }
{
    put_line(out, form, values)?;
    put_calls(alloc, out, roll, calls)?;
    put_line(out, Form::End, &[])
}

fn put_calls(alloc: Global, out: &mut Vec<u8>, roll: &Roll, calls: &[Call]) -> Result<(), NoMemory>
    ensures { OnOk result (out.new.items ≡ out.old.items ++ flat_map shown (map (line_of_call (roll_seen roll.now)) calls.now)) }
{
    for call in calls {
        put_call(alloc, out, roll, call)?;
    }
    Ok(())
}

fn put_declarations(
    alloc: Global,
    out: &mut Vec<u8>,
    roll: &Roll,
    declarations: &[Declaration],
) -> Result<(), NoMemory>
    ensures { OnOk result (out.new.items ≡ out.old.items ++ flat_map shown (map (declaration_line (roll_seen roll.now)) (map declaration_seen declarations.now))) }
{
    for d in declarations {
        put_declaration(alloc, out, roll, &d.name, &d.what)?;
    }
    Ok(())
}

/// Adds the body of a thread; an async has none.
fn put_thread(
    alloc: Global,
    out: &mut Vec<u8>,
    roll: &Roll,
    d: &Declaration,
    calls: &[Call],
) -> Result<(), NoMemory>
    ensures { OnOk result (out.new.items ≡ out.old.items ++ flat_map shown (bodies_from (roll_seen roll.now) (declaration_seen d.now ∷ []) (calls.now ∷ []))) }
{
    match d.what {
        Declared::Async(_, _) => Ok(()),
        _ => put_body(alloc, out, roll, Form::Body, &[Value::Word(&d.name)], calls),
    }
}

/// Adds the bodies of all threads but main.
fn put_bodies(
    alloc: Global,
    out: &mut Vec<u8>,
    roll: &Roll,
    declarations: &[Declaration],
    bodies: &[Vec<Call>],
) -> Result<(), NoMemory>
    ensures { OnOk result (out.new.items ≡ out.old.items ++ flat_map shown (bodies_from (roll_seen roll.now) (filter is_thread (map declaration_seen declarations.now)) (map (λ b. b.items) bodies.now))) }
{
    let mut rest = bodies;
    for d in declarations {
        if is_thread(d) {
            match rest {
                [] => return Ok(()),
                [calls, after @ ..] => {
                    put_thread(alloc, out, roll, d, calls)?;
                    rest = after;
                }
            }
        }
    }
    Ok(())
}

/// The calls of main.
fn main_calls(bodies: &[Vec<Call>]) -> &[Call]
    ensures { result.now ≡ body_of_main (map (λ b. b.items) bodies.now) }
{
    match bodies {
        [] => &[],
        [main, ..] => main.as_slice(),
    }
}

/// The bodies of the other threads.
fn other_bodies(bodies: &[Vec<Call>]) -> &[Vec<Call>]
    ensures { map (λ b. b.items) result.now ≡ drop 1 (map (λ b. b.items) bodies.now) }
{
    match bodies {
        [] => bodies,
        [_, others @ ..] => others,
    }
}

/// The canonical text of what is declared, and of the bodies by the numbers of their threads.
pub fn write_text(
    alloc: Global,
    roll: &Roll,
    declarations: &[Declaration],
    bodies: &[Vec<Call>],
) -> Result<Vec<u8>, NoMemory>
    ensures { IfOk result (λ text. text.items ≡ flat_map shown (text_lines (roll_seen roll.now) (map declaration_seen declarations.now) (map (λ b. b.items) bodies.now))) }
{
    let others = other_bodies(bodies);
    let main = main_calls(bodies);
    let mut out = Vec::new(alloc);
    put_line(&mut out, Form::VersionOne, &[Value::Word(b"1")])?;
    put_declarations(alloc, &mut out, roll, declarations)?;
    put_bodies(alloc, &mut out, roll, declarations, others)?;
    put_body(alloc, &mut out, roll, Form::Main, &[], main)?;
    Ok(out)
}
