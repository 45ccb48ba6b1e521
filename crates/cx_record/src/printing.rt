ghost use Rattle.std.specs.Prelude.{◌≡◌, ◌++◌, ◌∷◌, [], map, slice_get, OnOk, IfOk};
ghost use Rattle.std.specs.List.{flat_map};
ghost use Rattle.cx_text.specs.Items.{item_fields};
ghost use Rattle.cx_text.specs.Views.{seen};
ghost use Rattle.cx_script.specs.Script.{name_at};
ghost use Rattle.cx_record.specs.Printed.{filled_in, act_numbers, said_value, act_line, line_bytes, row_line, thread, item_text, list_text, lists_text, stuck_line, last_text, record_text, controlled, naming_of, printed};
ghost use Rattle.cx_items.specs.declared.item.Item.TheVariants as items;
ghost use Rattle.cx_record.specs.NamesSeen.{naming_seen};
ghost use Rattle.cx_history.specs.Views.{listed, recorded_of, number_of, numbers_of};

use crate::rows::{change_form, control_form, look_form, reply_form};
use cx_history::{List, Record, Threads};
use cx_items::{Control, Item};
use cx_machine::{Entry, Kind, Look};
use cx_names::{NoMemory, ObjectNo, Outcome, Reply, ThreadNo};
use cx_scenario::Scenario;
use cx_text::{Field, ItemForm, Value, put_line};
use std::alloc::Global;

/// The names and kinds that the lines of a record need, by their numbers.
#[derive(Drop)]
pub(crate) struct Naming<'a> {
    pub threads: &'a [Vec<u8>],
    pub objects: &'a [Vec<u8>],
    pub kinds: Vec<Kind>,
}

impl<'a> Naming<'a> {
    /// The names and kinds of a scenario.
    fn of(alloc: Global, scenario: &'a Scenario) -> Result<Naming<'a>, NoMemory>
        ensures { IfOk result (λ n. naming_seen n ≡ naming_of scenario.now) }
    {
        let objects = &scenario.plan().objects;
        let mut kinds = Vec::new(alloc);
        for object in objects.iter() {
            kinds.push(object.kind())?;
        }
        Ok(Naming {
            threads: scenario.thread_names(),
            objects: scenario.object_names(),
            kinds,
        })
    }

    /// The name of a thread; none has the empty name.
    fn thread(&self, t: usize) -> &'a [u8]
        ensures { result.now ≡ name_at (naming_seen self.now).threads t }
    {
        match self.threads.get(t) {
            Some(name) => name,
            None => &[],
        }
    }

    /// The kind of an object.
    fn kind(&self, o: ObjectNo) -> Option<Kind>
        ensures { result ≡ slice_get (naming_seen self.now).kinds o.0 }
    {
        self.kinds.get(o.0 as usize).copied()
    }

    /// The name of an object; none has the empty name.
    fn object(&self, o: ObjectNo) -> &'a [u8]
        ensures { result.now ≡ name_at (naming_seen self.now).objects o.0 }
    {
        match self.objects.get(o.0 as usize) {
            Some(name) => name,
            None => &[],
        }
    }
}

/// Writes a scenario and a record of it: the canonical text, and behind it the text of the record.
///
/// `live` are the threads that a stuck replay leaves; where there are none the last line is `done`. An item whose
/// words are not those of its object's kind has no line.
///
/// Errors: no memory for the text.
pub fn print(
    alloc: Global,
    scenario: &Scenario,
    record_of: &Record,
    live: &Threads,
) -> Result<Vec<u8>, NoMemory>
    ensures { IfOk result (λ text. text.items ≡ printed scenario.now (recorded_of record_of.now) (numbers_of live.now)) }
{
    let mut out = scenario.write(alloc)?;
    let names = Naming::of(alloc, scenario)?;
    let mut room = Room {
        given: Vec::new(alloc),
        values: Vec::new(alloc),
    };
    put_record(&mut out, &names, record_of, live, &mut room)?;
    Ok(out)
}

/// Lists of values that are used again for each line.
#[derive(Drop)]
pub(crate) struct Room<'a> {
    given: Vec<Value<'a>>,
    values: Vec<Value<'a>>,
}

/// The words of an act after its object: where it stands, its numbers and its reply.
#[derive(Clone, Copy)]
struct Act {
    object: ObjectNo,
    at: u32,
    a: i64,
    b: i64,
    reply: Reply,
}

/// Adds the number, thread or outcome that a reply names.
fn push_said<'a>(
    names: &Naming<'a>,
    reply: Reply,
    given: &mut Vec<Value<'a>>,
) -> Result<(), NoMemory>
    ensures { OnOk result (map seen given.new.items ≡ map seen given.old.items ++ said_value (naming_seen names.now) reply) }
{
    match reply {
        Reply::Number(n) => given.push(Value::Number(i128::from(n)))?,
        Reply::Outcome(Outcome::Value(n)) => given.push(Value::Number(i128::from(n)))?,
        Reply::Threw(e) => given.push(Value::Number(i128::from(e)))?,
        Reply::Outcome(Outcome::Exception(e)) => given.push(Value::Number(i128::from(e)))?,
        Reply::Thread(t) => given.push(Value::Word(names.thread(t.0 as usize)))?,
        _ => {}
    }
    Ok(())
}

/// Adds the numbers that stand after the word of an act.
fn push_numbers<'a>(
    form: ItemForm,
    a: i64,
    b: i64,
    given: &mut Vec<Value<'a>>,
) -> Result<(), NoMemory>
    ensures { OnOk result (map seen given.new.items ≡ map seen given.old.items ++ act_numbers form a b) }
{
    match form {
        ItemForm::ChangeNumbersSetIndexSigned
        | ItemForm::ChangeNumbersAddIndexSignedSigned
        | ItemForm::LookNumbersAddIndexSignedOverflow => {
            given.push(Value::Number(i128::from(a)))?;
            given.push(Value::Number(i128::from(b)))?;
        }
        ItemForm::ChangeFutureSetValueSigned | ItemForm::ChangeFutureSetExceptionNumber => {
            given.push(Value::Number(i128::from(b)))?;
        }
        ItemForm::LookNumbersGetIndexSigned
        | ItemForm::ChangeSemaphoreReleaseNumber
        | ItemForm::LookSemaphoreReleaseNumberOver
        | ItemForm::ChangeLatchCountDownNumber
        | ItemForm::ChangeBarrierArriveNumberNumber
        | ItemForm::LookBarrierArriveNumberOverExpected
        | ItemForm::LookBarrierWaitNumber
        | ItemForm::ChangeOnceFailNumber
        | ItemForm::ChangeStopRegisterNumber
        | ItemForm::ChangeStopRegisterNowNumber
        | ItemForm::ChangeStopBeginNumber
        | ItemForm::ChangeStopFinishNumber
        | ItemForm::ChangeStopDeregisterNumberRemoved
        | ItemForm::ChangeStopDeregisterNumberRan
        | ItemForm::ChangeStopDeregisterNumberInside
        | ItemForm::LookStopNeverNumber => given.push(Value::Number(i128::from(a)))?,
        _ => {}
    }
    Ok(())
}

/// Fills a row: its literal words stand for themselves, at its other fields stands what is given.
fn fill_row<'a>(
    fields: &[Field],
    given: &[Value<'a>],
    values: &mut Vec<Value<'a>>,
) -> Result<(), NoMemory>
    ensures { OnOk result (map seen values.new.items ≡ filled_in fields.now (map seen given.now)) }
{
    values.clear();
    let mut rest = given;
    for field in fields {
        match field {
            Field::Word(literal) => values.push(Value::Word(literal.word()))?,
            _ => match rest {
                [] => return Ok(()),
                [value, after @ ..] => {
                    values.push(*value)?;
                    rest = after;
                }
            },
        }
    }
    Ok(())
}

/// Writes a row with what is given at its open fields.
#[tactic(auto, unfolding(crate::specs::Printed::line_bytes))]
fn put_row<'a>(out: &mut Vec<u8>, form: ItemForm, room: &mut Room<'a>) -> Result<(), NoMemory>
    ensures { OnOk result (out.new.items ≡ out.old.items ++ line_bytes (row_line form (map seen room.old.given.items))) }
{
    fill_row(form.fields(), &room.given, &mut room.values)?;
    put_line(out, form, &room.values)?;
    Ok(())
}

/// Writes a row that names one thread.
fn put_thread<'a>(
    out: &mut Vec<u8>,
    names: &Naming<'a>,
    form: ItemForm,
    t: usize,
    room: &mut Room<'a>,
) -> Result<(), NoMemory>
    ensures { OnOk result (out.new.items ≡ out.old.items ++ line_bytes (row_line form (thread (naming_seen names.now) t ∷ []))) }
{
    room.given.clear();
    room.given.push(Value::Word(names.thread(t)))?;
    put_row(out, form, room)
}

/// Writes a row without open fields.
fn put_plain<'a>(out: &mut Vec<u8>, form: ItemForm, room: &mut Room<'a>) -> Result<(), NoMemory>
    ensures { OnOk result (out.new.items ≡ out.old.items ++ line_bytes (row_line form [])) }
{
    room.given.clear();
    put_row(out, form, room)
}

/// Writes the line of a change or a look.
fn put_act<'a>(
    out: &mut Vec<u8>,
    names: &Naming<'a>,
    act: Act,
    form: ItemForm,
    room: &mut Room<'a>,
) -> Result<(), NoMemory>
    ensures { OnOk result (out.new.items ≡ out.old.items ++ line_bytes (act_line (naming_seen names.now) act.object.0 act.at act.a act.b act.reply form)) }
{
    room.given.clear();
    room.given.push(Value::Word(names.object(act.object)))?;
    room.given.push(Value::Number(i128::from(act.at)))?;
    push_numbers(form, act.a, act.b, &mut room.given)?;
    push_said(names, act.reply, &mut room.given)?;
    put_row(out, form, room)
}

/// Writes the line of a change.
fn put_change<'a>(
    out: &mut Vec<u8>,
    names: &Naming<'a>,
    object: ObjectNo,
    at: u32,
    e: &Entry,
    room: &mut Room<'a>,
) -> Result<(), NoMemory>
    ensures { OnOk result (out.new.items ≡ out.old.items ++ item_text (naming_seen names.now) (items.Change object at e.now)) }
{
    let Some(kind) = names.kind(object) else {
        return Ok(());
    };
    let Some(form) = change_form(kind, e.op, e.a, e.reply) else {
        return Ok(());
    };
    let act = Act {
        object,
        at,
        a: e.a,
        b: e.b,
        reply: e.reply,
    };
    put_act(out, names, act, form, room)
}

/// Writes the line of a look.
fn put_look<'a>(
    out: &mut Vec<u8>,
    names: &Naming<'a>,
    object: ObjectNo,
    look: &Look,
    room: &mut Room<'a>,
) -> Result<(), NoMemory>
    ensures { OnOk result (out.new.items ≡ out.old.items ++ item_text (naming_seen names.now) (items.Look object look.now)) }
{
    let Some(kind) = names.kind(object) else {
        return Ok(());
    };
    let Some(form) = look_form(kind, look.op, look.reply) else {
        return Ok(());
    };
    let act = Act {
        object,
        at: look.at,
        a: look.a,
        b: look.b,
        reply: look.reply,
    };
    put_act(out, names, act, form, room)
}

/// The number of the thread that a control names.
fn controlled(control: Control) -> ThreadNo
    ensures { result.0 ≡ controlled control }
{
    match control {
        Control::Start(t, _) => t,
        Control::Launch(t, _) => t,
        Control::Join(t) => t,
    }
}

/// Writes the line of a reply.
fn put_said<'a>(
    out: &mut Vec<u8>,
    names: &Naming<'a>,
    reply: Reply,
    room: &mut Room<'a>,
) -> Result<(), NoMemory>
    ensures { OnOk result (out.new.items ≡ out.old.items ++ item_text (naming_seen names.now) (items.Said reply)) }
{
    room.given.clear();
    push_said(names, reply, &mut room.given)?;
    put_row(out, reply_form(reply), room)
}

/// Writes the line of an item.
fn put_item<'a>(
    out: &mut Vec<u8>,
    names: &Naming<'a>,
    item: &Item,
    room: &mut Room<'a>,
) -> Result<(), NoMemory>
    ensures { OnOk result (out.new.items ≡ out.old.items ++ item_text (naming_seen names.now) item.now) }
{
    match item {
        Item::Change(object, at, e) => put_change(out, names, *object, *at, e, room),
        Item::Look(object, look) => put_look(out, names, *object, look, room),
        Item::Control(control) => {
            let t = controlled(*control);
            put_thread(out, names, control_form(*control), t.0 as usize, room)
        }
        Item::Said(reply) => put_said(out, names, *reply, room),
    }
}

/// Writes the items of a list.
fn put_items<'a>(
    out: &mut Vec<u8>,
    names: &Naming<'a>,
    items: &[Item],
    room: &mut Room<'a>,
) -> Result<(), NoMemory>
    ensures { OnOk result (out.new.items ≡ out.old.items ++ flat_map (item_text (naming_seen names.now)) items.now) }
{
    for item in items {
        put_item(out, names, item, room)?;
    }
    Ok(())
}

/// Writes the list of a thread, or that it wasn't started.
fn put_list<'a>(
    out: &mut Vec<u8>,
    names: &Naming<'a>,
    t: usize,
    list: &List,
    room: &mut Room<'a>,
) -> Result<(), NoMemory>
    ensures { OnOk result (out.new.items ≡ out.old.items ++ list_text (naming_seen names.now) t (listed list.now)) }
{
    if !list.started {
        return put_thread(out, names, ItemForm::Unstarted, t, room);
    }
    put_thread(out, names, ItemForm::Acts, t, room)?;
    put_items(out, names, &list.items.items, room)?;
    put_plain(out, ItemForm::EndOfActs, room)
}

/// Writes a line for each thread that is still live.
fn put_stuck<'a>(
    out: &mut Vec<u8>,
    names: &Naming<'a>,
    live: &[ThreadNo],
    room: &mut Room<'a>,
) -> Result<(), NoMemory>
    ensures { OnOk result (out.new.items ≡ out.old.items ++ flat_map (stuck_line (naming_seen names.now)) (map number_of live.now)) }
{
    for t in live {
        put_thread(out, names, ItemForm::StuckAt, t.0 as usize, room)?;
    }
    Ok(())
}

/// Writes the last line: `done`, or a line for each thread that is still live.
fn put_last<'a>(
    out: &mut Vec<u8>,
    names: &Naming<'a>,
    live: &[ThreadNo],
    room: &mut Room<'a>,
) -> Result<(), NoMemory>
    ensures { OnOk result (out.new.items ≡ out.old.items ++ last_text (naming_seen names.now) (map number_of live.now)) }
{
    match live {
        [] => put_plain(out, ItemForm::Done, room),
        [_, ..] => put_stuck(out, names, live, room),
    }
}

/// Writes the lists of all threads.
fn put_lists<'a>(
    out: &mut Vec<u8>,
    names: &Naming<'a>,
    lists: &[List],
    room: &mut Room<'a>,
) -> Result<(), NoMemory>
    ensures { OnOk result (out.new.items ≡ out.old.items ++ lists_text (naming_seen names.now) 0 (map listed lists.now)) }
{
    for t in 0..lists.len() {
        put_list(out, names, t, &lists[t], room)?;
    }
    Ok(())
}

/// Writes the text of a record.
pub(crate) fn put_record<'a>(
    out: &mut Vec<u8>,
    names: &Naming<'a>,
    done: &Record,
    live: &Threads,
    room: &mut Room<'a>,
) -> Result<(), NoMemory>
    ensures { OnOk result (out.new.items ≡ out.old.items ++ record_text (naming_seen names.now) (recorded_of done.now) (numbers_of live.now)) }
{
    put_plain(out, ItemForm::RecordOne, room)?;
    put_lists(out, names, &done.lists, room)?;
    put_last(out, names, &live.threads, room)
}
