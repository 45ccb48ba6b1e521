ghost use Rattle.std.specs.Prelude.{◌≡◌, ◌<◌, ◌+◌, suc, length, slice_get, Some, IfOk};
ghost use Rattle.cx_history.specs.Histories.{items_of, list_of};
ghost use Rattle.cx_history.specs.Views.{listed, recorded_of};
ghost use Rattle.cx_order.specs.Arcs.{AreFirsts, first_of};

use cx_history::{List, Record};
use cx_items::Item;
use cx_names::NoMemory;
use std::alloc::Global;

/// The number as one of 32 bits; a list of more items doesn't fit any memory.
pub(crate) fn number(i: usize) -> Result<u32, NoMemory>
    ensures { IfOk result (λ n. n ≡ i) }
{
    u32::try_from(i).ok().ok_or(NoMemory)
}

/// The items of a thread's list, none of a thread that wasn't started.
fn items(list: &List) -> &[Item]
    ensures { result.now ≡ items_of (listed list.now) }
{
    if list.started {
        list.items.items.as_slice()
    } else {
        &[]
    }
}

/// The items of thread `t`.
pub(crate) fn list_at(record: &Record, t: usize) -> &[Item]
    requires { t < length record.now.lists.items }
    ensures { result.now ≡ list_of (recorded_of record.now) t }
{
    items(&record.lists[t])
}

/// Item `i` of a list.
pub(crate) fn item_at(list: &[Item], i: usize) -> Item
    requires { i < length list.now }
    ensures { slice_get list.now i ≡ Some result }
{
    list[i]
}

/// The sum of two numbers of nodes; so many nodes don't fit any memory.
pub(crate) fn sum(a: u32, b: u32) -> Result<u32, NoMemory>
    ensures { IfOk result (λ n. n ≡ a + b) }
{
    a.checked_add(b).ok_or(NoMemory)
}

/// How many points a list of so many items has.
pub(crate) fn points(list: &[Item]) -> Result<u32, NoMemory>
    ensures { IfOk result (λ n. n ≡ suc (length list.now)) }
{
    sum(number(list.len())?, 1)
}

/// The nodes of the first points of all lists, and that behind all points.
pub(crate) fn firsts(alloc: Global, record: &Record) -> Result<Vec<u32>, NoMemory>
    ensures { IfOk result (λ v. AreFirsts (recorded_of record.now) v.items) }
{
    let mut firsts = Vec::new(alloc);
    let mut node = 0u32;
    for t in 0..record.lists.len() {
        firsts.push(node)?;
        let count = points(list_at(record, t))?;
        node = sum(node, count)?;
    }
    firsts.push(node)?;
    Ok(firsts)
}
