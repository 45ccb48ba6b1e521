ghost use Rattle.std.specs.Prelude.{◌≡◌, ◌∷◌, [], pos, true, false};
ghost use Rattle.cx_names.specs.declared.Reply.TheVariants as replies;
ghost use Rattle.cx_machine.specs.declared.kind.Op.TheVariants as ops;
ghost use Rattle.cx_scene.specs.Scene.{scene_of};
ghost use Rattle.cx_items.specs.declared.item.Control.TheVariants as controls;
ghost use Rattle.cx_items.specs.declared.form.Wanted.TheVariants as wanted;
ghost use Rattle.cx_items.specs.declared.form.Form.TheVariants as forms;
ghost use Rattle.cx_items.specs.declared.task.Task.TheVariants as tasks;
ghost use Rattle.cx_items.specs.Form.{change, look, forms_in};
ghost use Rattle.cx_items.specs.Next.{mutex_at, read_number};
ghost use Rattle.cx_items.specs.Steps.{forms_of, may_be_skipped};

use crate::calls::small_forms;
use crate::form::{Form, Forms, Wanted};
use crate::item::{Control, Item};
use crate::task::Task;
use cx_machine::Op;
use cx_names::{ObjectNo, Reply, ThreadNo};
use cx_scene::{Few, Object, Plan, Policy, Predicate};

/// The look at the number that the test is of.
pub fn read_number(m: ObjectNo, test: Predicate) -> Form
    ensures { result ≡ read_number m test }
{
    Form::Look(m, Op::Get, i64::from(test.number), 0, Wanted::ANumber)
}

/// The mutex in front of which there are `k` others.
fn mutex_at(mutexes: &Few, k: u32) -> ObjectNo
    ensures { result ≡ mutex_at mutexes.now k }
{
    ObjectNo(mutexes.as_slice().get(k as usize).copied().unwrap_or(0))
}

impl Task {
    /// The acts, or the reply, of which the next item is one.
    pub fn forms(&self, plan: &Plan) -> Forms
        ensures { forms_in result ≡ forms_of (scene_of plan.now) self.now }
    {
        match self {
            Task::Makes(forms) => *forms,
            Task::Answers(forms) => *forms,
            Task::Says(reply) => Forms::One(Form::Says(*reply)),
            Task::Arrives(b, n) => arrival_forms(*b, Op::Arrive, *n, *n),
            Task::ArrivesAndWaits(b) => arrival_forms(*b, Op::Arrive, 1, 1),
            Task::ArrivesAndDrops(b) => arrival_forms(*b, Op::Drop, 0, 0),
            Task::Completes(b, _) => completion_forms(plan, *b),
            Task::CallsOnce(o, ..) => Forms::Two(
                Form::change(*o, Op::Begin, 0, Reply::Ok),
                Form::look(*o, Op::Passive, 0, Reply::Ok),
            ),
            Task::LocksFrom(os) => {
                Forms::One(Form::change(mutex_at(os, 0), Op::Lock, 0, Reply::Ok))
            }
            Task::LocksRest(os, k) => try_forms(mutex_at(os, *k)),
            Task::TriesAll(os, k) => try_forms(mutex_at(os, *k)),
            Task::Tests(_, m, test) => Forms::One(read_number(*m, *test)),
            Task::RegistersWait(w) => register_forms(w.stop, w.id),
            Task::AsksStop(w) => ask_forms(w.stop),
            Task::TestsStop(w) => Forms::One(read_number(w.mutex, w.test)),
            Task::TestsLast(w) => Forms::One(read_number(w.mutex, w.test)),
            Task::AsksAgain(w) => ask_forms(w.stop),
            Task::Requests(st, _) => Forms::Two(
                Form::change(*st, Op::Request, 0, Reply::Ok),
                Form::look(*st, Op::Already, 0, Reply::Ok),
            ),
            Task::Drains(st, _) => {
                let drained = Form::look(*st, Op::Drained, 0, Reply::Ok);
                Forms::Two(Form::Begin(*st), drained)
            }
            Task::Registers(st, id) => register_forms(*st, *id),
            Task::Launches(_, u, Policy::Async) => launch_forms(*u),
            Task::Launches(_, u, Policy::Both) => launch_forms(*u),
            Task::Launches(a, _, Policy::Deferred) => {
                Forms::One(Form::change(*a, Op::Defer, 0, Reply::Ok))
            }
        }
    }

    /// Whether the next item may be one of the task after this one.
    pub fn may_be_skipped(&self) -> bool
        ensures { result ≡ may_be_skipped self.now }
    {
        match self {
            Task::Completes(_, must) => !*must,
            _ => false,
        }
    }
}

/// An arrival with the phase as its reply, or one too many.
fn arrival_forms(b: ObjectNo, op: Op, n: u32, counted: u32) -> Forms
    ensures { forms_in result ≡ forms.Change b op (pos n) (pos 0) wanted.ANumber ∷ look b op n replies.OverExpected ∷ [] }
{
    let arrived = Form::Change(b, op, i64::from(n), 0, Wanted::ANumber);
    Forms::Two(arrived, Form::look(b, op, n, Reply::OverExpected))
}

/// The completion of the barrier, or that it is complete where it has none.
fn completion_forms(plan: &Plan, b: ObjectNo) -> Forms
    ensures { forms_in result ≡ forms_of (scene_of plan.now) (tasks.Completes b true) }
{
    match plan.object(b) {
        Some(
            Object::Barrier {
                small: Some(small),
                ..
            },
        ) => small_forms(*small),
        _ => Forms::One(Form::change(b, Op::Complete, 0, Reply::Ok)),
    }
}

/// A lock that is taken if it can be had now.
fn try_forms(m: ObjectNo) -> Forms
    ensures { forms_in result ≡ change m ops.TryLock 0 replies.True ∷ look m ops.TryLock 0 replies.False ∷ [] }
{
    Forms::Two(
        Form::change(m, Op::TryLock, 0, Reply::True),
        Form::look(m, Op::TryLock, 0, Reply::False),
    )
}

/// Whether a stop was requested.
fn ask_forms(st: ObjectNo) -> Forms
    ensures { forms_in result ≡ look st ops.StopRequested 0 replies.True ∷ look st ops.StopRequested 0 replies.False ∷ [] }
{
    Forms::Two(
        Form::look(st, Op::StopRequested, 0, Reply::True),
        Form::look(st, Op::StopRequested, 0, Reply::False),
    )
}

/// A registration, which may run at once, or be in vain.
fn register_forms(st: ObjectNo, id: u32) -> Forms
    ensures { forms_in result ≡ change st ops.Register id replies.Ok ∷ change st ops.RegisterNow id replies.Ok ∷ look st ops.Never id replies.Ok ∷ [] }
{
    Forms::Three(
        Form::change(st, Op::Register, id, Reply::Ok),
        Form::change(st, Op::RegisterNow, id, Reply::Ok),
        Form::look(st, Op::Never, id, Reply::Ok),
    )
}

/// A launch on a thread of its own, where there is one to be had.
fn launch_forms(u: ThreadNo) -> Forms
    ensures { forms_in result ≡ forms.Does (controls.Launch u true) ∷ forms.Does (controls.Launch u false) ∷ [] }
{
    Forms::Two(
        Form::Does(Control::Launch(u, true)),
        Form::Does(Control::Launch(u, false)),
    )
}
