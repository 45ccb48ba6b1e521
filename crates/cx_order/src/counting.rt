ghost use Rattle.std.specs.Prelude.{◌≡◌, ℕ, ◌≤◌, ◌<◌, ◌+◌, ◌*◌, ◌++◌, ◌^◌, map, IfOk};
ghost use Rattle.cx_history.specs.Histories.{Recorded, items_of};
ghost use Rattle.cx_history.specs.Views.{listed, recorded_of};
ghost use Rattle.cx_order.specs.Edges.{completes, completed_before};
ghost use Rattle.cx_order.specs.Counts.{complete_of, completes_in, completes_from, IsTallyOf, ArePlacesSmall};

use crate::firsts::list_at;
use cx_graph::Tally;
use cx_history::Record;
use cx_items::Item;
use cx_machine::Op;
use cx_names::NoMemory;
use std::alloc::Global;

fn is_complete(op: Op) -> bool
    ensures { result ≡ completes op }
{
    matches!(op, Op::Complete)
}

/// Where a position of an object stands in order of object and position.
fn rank(o: u32, position: u32) -> u128
    ensures { result ≡ o * 4294967296 + position }
{
    o as u128 * 4_294_967_296 + position as u128
}

/// Puts the number of an item where it's a `complete`.
fn put_complete(numbers: &mut Vec<u128>, item: Item) -> Result<(), NoMemory>
    ensures { IfOk result (λ _. numbers.new.items ≡ numbers.old.items ++ complete_of item) }
{
    match item {
        Item::Change(o, position, entry) => {
            if is_complete(entry.op) {
                numbers.push(rank(o.0, position))?;
            }
            Ok(())
        }
        _ => Ok(()),
    }
}

/// Puts the numbers of the `complete`s among these items.
fn put_completes(numbers: &mut Vec<u128>, list: &[Item]) -> Result<(), NoMemory>
    ensures { IfOk result (λ _. numbers.new.items ≡ numbers.old.items ++ completes_in list.now) }
{
    for i in 0..list.len() {
        let item = list[i];
        put_complete(numbers, item)?;
    }
    Ok(())
}

/// All `complete`s of a record, by object and position.
pub(crate) fn completes(alloc: Global, record: &Record) -> Result<Tally, NoMemory>
    ensures { IfOk result (λ t. IsTallyOf (recorded_of record.now) t) }
{
    let mut numbers = Vec::new(alloc);
    for t in 0..record.lists.len() {
        put_completes(&mut numbers, list_at(record, t))?;
    }
    let tally = Tally::of(numbers)?;
    Ok(tally)
}

/// How many times object `o` has completed before a position, which is at most 4,294,967,296.
pub(crate) fn completed_before(record: &Record, tally: &Tally, o: u32, position: u64) -> usize
    requires tally { IsTallyOf (recorded_of record.now) tally.now }
    requires small { ArePlacesSmall (recorded_of record.now) }
    requires within { position ≤ 4294967296 }
    ensures { result ≡ completed_before (recorded_of record.now) o position }
{
    let first = o as u128 * 4_294_967_296;
    tally.below(first + position as u128) - tally.below(first)
}
