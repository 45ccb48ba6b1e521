ghost use Rattle.std.specs.Prelude.{◌≡◌, Option, Some, None, map};
ghost use Rattle.cx_record.specs.Roster.{object_called};
ghost use Rattle.cx_record.specs.ItemLines.{word_at, item_said, as_change, as_look};
ghost use Rattle.cx_record.specs.RosterSeen.{roster_seen, line_seen};

use crate::act::{Words, change_words, control_said, look_words, reply_said};
use crate::roster::Roster;
use crate::values::small_at;
use cx_items::Item;
use cx_machine::{Entry, Look};
use cx_names::{ObjectNo, ThreadNo};
use cx_text::{ItemForm, Value};

/// A change by a thread.
fn as_change(
    roster: &Roster<'_>,
    by: ThreadNo,
    form: ItemForm,
    values: &[Value<'_>],
    object: Option<u32>,
    words: Words,
) -> Item
    requires { object ≡ object_called (roster_seen roster.now) (word_at (line_seen form values.now) 0) }
    ensures { result ≡ as_change (roster_seen roster.now) by.0 (line_seen form values.now) words }
{
    let entry = Entry {
        by,
        op: words.op,
        a: words.a,
        b: words.b,
        reply: words.reply,
    };
    Item::Change(ObjectNo(object.unwrap_or(0)), small_at(values, 1), entry)
}

/// A look by a thread.
fn as_look(
    roster: &Roster<'_>,
    by: ThreadNo,
    form: ItemForm,
    values: &[Value<'_>],
    object: Option<u32>,
    words: Words,
) -> Item
    requires { object ≡ object_called (roster_seen roster.now) (word_at (line_seen form values.now) 0) }
    ensures { result ≡ as_look (roster_seen roster.now) by.0 (line_seen form values.now) words }
{
    let look = Look {
        by,
        op: words.op,
        a: words.a,
        b: words.b,
        reply: words.reply,
        at: small_at(values, 1),
    };
    Item::Look(ObjectNo(object.unwrap_or(0)), look)
}

/// The item that a line says in the list of a thread; `object` is the number of the object that its first name names.
pub(crate) fn item_said(
    roster: &Roster<'_>,
    by: ThreadNo,
    form: ItemForm,
    values: &[Value<'_>],
    object: Option<u32>,
) -> Option<Item>
    requires { object ≡ object_called (roster_seen roster.now) (word_at (line_seen form values.now) 0) }
    ensures { result ≡ item_said (roster_seen roster.now) by.0 (line_seen form values.now) }
{
    if let Some(words) = change_words(roster, form, values) {
        return Some(as_change(roster, by, form, values, object, words));
    }
    if let Some(words) = look_words(form, values) {
        return Some(as_look(roster, by, form, values, object, words));
    }
    if let Some(control) = control_said(roster, form, values) {
        return Some(Item::Control(control));
    }
    match reply_said(roster, form, values) {
        None => None,
        Some(reply) => Some(Item::Said(reply)),
    }
}
