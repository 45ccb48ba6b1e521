ghost use Rattle.std.specs.Prelude.{◌≡◌, true, All};
ghost use Rattle.cx_machine.specs.Words.{fits_i64};
ghost use Rattle.cx_history.specs.Views.{recorded_of};
ghost use Rattle.cx_record.specs.Laws.{HasTypes, item_fits, reply_fits};

use cx_history::{List, Record};
use cx_items::Item;
use cx_names::{Outcome, Reply};

/// A number of 64 bits with a sign.
fn number_has_type(_number: i64)
    ensures { fits_i64 _number ≡ true }
{}

/// The number of a reply.
fn reply_has_type(reply: Reply)
    ensures { reply_fits reply ≡ true }
{
    match reply {
        Reply::Number(n) | Reply::Outcome(Outcome::Value(n)) => number_has_type(n),
        _ => {}
    }
}

/// The numbers of an item.
fn item_has_types(item: &Item)
    ensures { item_fits item.now ≡ true }
{
    match item {
        Item::Change(_, _, entry) => {
            number_has_type(entry.b);
            reply_has_type(entry.reply);
        }
        Item::Look(_, look) => {
            number_has_type(look.b);
            reply_has_type(look.reply);
        }
        Item::Control(_) => {}
        Item::Said(reply) => reply_has_type(*reply),
    }
}

/// The numbers of items.
fn items_have_types(items: &[Item])
    ensures { All (λ x. item_fits x ≡ true) items.now }
{
    for item in items {
        item_has_types(item);
    }
}

/// The numbers of lists.
fn lists_have_types(lists: &[List])
    ensures { All (λ l. All (λ x. item_fits x ≡ true) l.items.items.items) lists.now }
{
    for list in lists {
        items_have_types(&list.items.items);
    }
}

/// The numbers of a record are those of their types, which the laws of printed records ask. It looks at each item, and changes nothing.
pub fn has_types(record_of: &Record)
    ensures { HasTypes (recorded_of record_of.now) }
{
    lists_have_types(&record_of.lists);
}
