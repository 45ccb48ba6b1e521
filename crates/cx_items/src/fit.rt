use crate::form::{Form, Forms, Wanted};
use crate::item::{Control, Item};
use cx_machine::{Entry, Look, Op};
use cx_names::{ObjectNo, Outcome, Reply};
use cx_scene::Plan;

/// Which of the forms of a task.
#[derive(Clone, Copy)]
pub enum Which {
    First,
    Second,
    Third,
}

/// The form that an item is of, and the word that the form left open: the reply, or the number of
/// the callback that begins.
#[derive(Clone, Copy)]
pub struct Fit {
    pub which: Which,
    pub reply: Reply,
}

/// A form that an item is of, and how many tasks are skipped before its task.
#[derive(Clone, Copy)]
pub struct Found {
    pub skipped: usize,
    pub fit: Fit,
}

ghost use Rattle.std.specs.Prelude.{◌≡◌};
ghost use Rattle.cx_names.specs.Replies.{int_eq, reply_word, reply_number, reply_eq};
ghost use Rattle.cx_scene.specs.Scene.{scene_of};
ghost use Rattle.cx_items.specs.Form.{op_eq, is_wanted, control_eq, control_reply, same_words, is_registered_on, fits, forms_in};
ghost use Rattle.cx_items.specs.Steps.{first_fit};

fn same_op(a: Op, b: Op) -> bool
    ensures { result ≡ op_eq a b }
{
    a as u8 == b as u8
}

/// Which word a reply is.
fn reply_word(reply: Reply) -> u8
    ensures { result ≡ reply_word reply }
{
    match reply {
        Reply::Ok => 0,
        Reply::True => 1,
        Reply::False => 2,
        Reply::Over => 3,
        Reply::OverExpected => 4,
        Reply::MaxLevels => 5,
        Reply::Overflow => 6,
        Reply::Made => 7,
        Reply::Already => 8,
        Reply::Queued => 9,
        Reply::Ran => 10,
        Reply::Never => 11,
        Reply::Removed => 12,
        Reply::Inside => 13,
        Reply::NotHeld => 14,
        Reply::Returned => 15,
        Reply::Passive => 16,
        Reply::NoToken => 17,
        Reply::Spent => 18,
        Reply::NoThread => 19,
        Reply::Launched => 20,
        Reply::Deferred => 21,
        Reply::Nobody => 22,
        Reply::NoState => 23,
        Reply::PromiseAlreadySatisfied => 24,
        Reply::FutureAlreadyRetrieved => 25,
        Reply::OperationNotPermitted => 26,
        Reply::ResourceDeadlockWouldOccur => 27,
        Reply::InvalidArgument => 28,
        Reply::Number(_) => 29,
        Reply::Thread(_) => 30,
        Reply::Threw(_) => 31,
        Reply::Outcome(Outcome::Value(_)) => 32,
        Reply::Outcome(Outcome::Exception(_)) => 33,
        Reply::Outcome(Outcome::Broken) => 34,
    }
}

/// The number that stands with the word, or 0.
fn reply_number(reply: Reply) -> i64
    ensures { result ≡ reply_number reply }
{
    match reply {
        Reply::Number(n) => n,
        Reply::Thread(t) => i64::from(t.0),
        Reply::Threw(e) => i64::from(e),
        Reply::Outcome(Outcome::Value(v)) => v,
        Reply::Outcome(Outcome::Exception(e)) => i64::from(e),
        _ => 0,
    }
}

fn same_number(a: i64, b: i64) -> bool
    ensures { result ≡ int_eq a b }
{
    a == b
}

fn same_reply(a: Reply, b: Reply) -> bool
    ensures { result ≡ reply_eq a b }
{
    reply_word(a) == reply_word(b) && same_number(reply_number(a), reply_number(b))
}

fn is_wanted(wanted: Wanted, reply: Reply) -> bool
    ensures { result ≡ is_wanted wanted reply }
{
    match (wanted, reply) {
        (Wanted::Just(r), s) => same_reply(r, s),
        (Wanted::ANumber, Reply::Number(_)) => true,
        (Wanted::AThread, Reply::Thread(_) | Reply::Nobody) => true,
        (Wanted::AnOutcome, Reply::Outcome(_)) => true,
        _ => false,
    }
}

fn same_control(a: Control, b: Control) -> bool
    ensures { result ≡ control_eq a b }
{
    match (a, b) {
        (Control::Start(t, begun), Control::Start(u, also)) => t.0 == u.0 && begun == also,
        (Control::Launch(t, begun), Control::Launch(u, also)) => t.0 == u.0 && begun == also,
        (Control::Join(t), Control::Join(u)) => t.0 == u.0,
        _ => false,
    }
}

fn control_reply(c: Control) -> Reply
    ensures { result ≡ control_reply c }
{
    match c {
        Control::Start(_, true) | Control::Launch(_, true) | Control::Join(_) => Reply::Ok,
        Control::Start(_, false) | Control::Launch(_, false) => Reply::NoThread,
    }
}

/// Whether the text registers the callback of this number on the stop state.
fn is_registered_on(plan: &Plan, stop: ObjectNo, id: i64) -> bool
    ensures { result ≡ is_registered_on (scene_of plan.now) stop id }
{
    if id < 0 {
        return false;
    }
    match plan.registration(id as u64) {
        None => false,
        Some(registered) => match plan.stop_of(registered) {
            None => false,
            Some(o) => stop.0 == o.0,
        },
    }
}

fn is_change(op: Op, a: i64, b: i64, wanted: Wanted, e: Entry) -> bool
    ensures { result ≡ same_words op a b wanted e.op e.a e.b e.reply }
{
    same_op(op, e.op) && same_number(a, e.a) && same_number(b, e.b) && is_wanted(wanted, e.reply)
}

fn is_look(op: Op, a: i64, b: i64, wanted: Wanted, l: Look) -> bool
    ensures { result ≡ same_words op a b wanted l.op l.a l.b l.reply }
{
    same_op(op, l.op) && same_number(a, l.a) && same_number(b, l.b) && is_wanted(wanted, l.reply)
}

/// The word that the form left open, where the item is of the form.
pub fn fits(plan: &Plan, form: Form, item: Item) -> Option<Reply>
    ensures { result ≡ fits (scene_of plan.now) form item }
{
    match (form, item) {
        (Form::Change(o, op, a, b, wanted), Item::Change(q, _, e)) => {
            if o.0 == q.0 && is_change(op, a, b, wanted, e) {
                Some(e.reply)
            } else {
                None
            }
        }
        (Form::Look(o, op, a, b, wanted), Item::Look(q, l)) => {
            if o.0 == q.0 && is_look(op, a, b, wanted, l) {
                Some(l.reply)
            } else {
                None
            }
        }
        (Form::Begin(o), Item::Change(q, _, e)) => {
            let wanted = Wanted::Just(Reply::Ok);
            if o.0 == q.0
                && is_change(Op::Begin, e.a, 0, wanted, e)
                && is_registered_on(plan, o, e.a)
            {
                Some(Reply::Number(e.a))
            } else {
                None
            }
        }
        (Form::Does(c), Item::Control(d)) => {
            if same_control(c, d) {
                Some(control_reply(c))
            } else {
                None
            }
        }
        (Form::Says(r), Item::Said(q)) => { if same_reply(r, q) { Some(r) } else { None } }
        _ => None,
    }
}

impl Forms {
    /// The first of the forms that the item is of.
    pub fn first_fit(self, plan: &Plan, item: Item) -> Option<Fit>
        ensures { result ≡ first_fit (scene_of plan.now) (forms_in self) item }
    {
        let (first, second, third) = match self {
            Forms::One(f) => (f, None, None),
            Forms::Two(f, g) => (f, Some(g), None),
            Forms::Three(f, g, h) => (f, Some(g), Some(h)),
        };
        if let Some(reply) = fits(plan, first, item) {
            let which = Which::First;
            return Some(Fit { which, reply });
        }
        if let Some(reply) = fits(plan, second?, item) {
            let which = Which::Second;
            return Some(Fit { which, reply });
        }
        let reply = fits(plan, third?, item)?;
        let which = Which::Third;
        Some(Fit { which, reply })
    }
}
