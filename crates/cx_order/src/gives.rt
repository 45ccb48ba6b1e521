ghost use Rattle.cx_order.specs.Edges.{completed_before as completions};
ghost use Rattle.std.specs.Prelude.{◌≡◌, pos, ◌≤◌, ◌<◌, ◌+◌, ◌++◌, [], Option, Some, None, map, length, slice_get, IfOk};
ghost use Rattle.std.specs.Option.{option_to_list};
ghost use Rattle.cx_scene.specs.Scene.{scene_of};
ghost use Rattle.cx_history.specs.Histories.{items_of, list_of};
ghost use Rattle.cx_history.specs.Views.{listed, recorded_of};
ghost use Rattle.cx_order.specs.Arcs.{given_as, taken_as, class_of, row_of, give_in, give_of, gives_in, gives_from, AreFirsts};
ghost use Rattle.cx_order.specs.Counts.{IsTallyOf, ArePlacesSmall, has_small_place};
ghost use Rattle.cx_order.specs.Gives.{IsSmall, MayBeSmall, AreSmall, AreGives};

use crate::counting::completed_before;
use crate::firsts::{item_at, list_at, number, sum};
use crate::row::{Row, given};
use cx_graph::{Give, Hubs, Tally};
use cx_history::Record;
use cx_items::Item;
use cx_machine::{Entry, small};
use cx_names::{NoMemory, ObjectNo};
use cx_scene::Plan;
use std::alloc::Global;

/// How many times object `o` has completed before a position.
fn count(record: &Record, tally: &Tally, o: u32, position: u64) -> Result<u32, NoMemory>
    requires tally { IsTallyOf (recorded_of record.now) tally.now }
    requires small { ArePlacesSmall (recorded_of record.now) }
    requires within { position ≤ 4294967296 }
    ensures { IfOk result (λ n. n ≡ completions (recorded_of record.now) o position) }
{
    number(completed_before(record, tally, o, position))
}

/// The key and the place of a change on the left of a row, by its position and number.
fn given_as(
    record: &Record,
    tally: &Tally,
    o: u32,
    row: Row,
    position: u32,
    a: i64,
) -> Result<Option<(u32, u32)>, NoMemory>
    requires tally { IsTallyOf (recorded_of record.now) tally.now }
    requires small { ArePlacesSmall (recorded_of record.now) }
    ensures { IfOk result (λ k. k ≡ given_as (recorded_of record.now) o row position a) }
{
    match row {
        Row::Arrival => {
            let phase = count(record, tally, o, position as u64 + 1)?;
            Ok(Some((phase, position)))
        }
        Row::Completion => {
            let phase = count(record, tally, o, position as u64)?;
            Ok(Some((0, phase)))
        }
        Row::Registration | Row::CallbackEnd => match small(a) {
            None => Ok(None),
            Some(id) => Ok(Some((id, position))),
        },
        _ => Ok(Some((0, position))),
    }
}

/// The key and the bound of an act on the right of a row, by its position or stamp and its number.
pub(crate) fn taken_as(
    record: &Record,
    tally: &Tally,
    o: u32,
    row: Row,
    at: u32,
    a: i64,
) -> Result<Option<(u32, u32)>, NoMemory>
    requires tally { IsTallyOf (recorded_of record.now) tally.now }
    requires small { ArePlacesSmall (recorded_of record.now) }
    requires within { at < 4294967294 }
    ensures { IfOk result (λ k. k ≡ taken_as (recorded_of record.now) o row at a) }
{
    match row {
        Row::Arrival => arrival_taken(record, tally, o, at),
        Row::Completion => completion_taken(record, tally, o, at, a),
        Row::Registration | Row::CallbackEnd => match small(a) {
            None => Ok(None),
            Some(id) => Ok(Some((id, at))),
        },
        _ => Ok(Some((0, at))),
    }
}

/// The key and the bound of an arrival, where a `complete` is next.
fn arrival_taken(
    record: &Record,
    tally: &Tally,
    o: u32,
    at: u32,
) -> Result<Option<(u32, u32)>, NoMemory>
    requires tally { IsTallyOf (recorded_of record.now) tally.now }
    requires small { ArePlacesSmall (recorded_of record.now) }
    requires within { at < 4294967294 }
    ensures { IfOk result (λ k. k ≡ taken_as (recorded_of record.now) o Row.Arrival at (pos 0)) }
{
    let phase = count(record, tally, o, at as u64 + 1)?;
    let next = count(record, tally, o, at as u64 + 2)?;
    if phase == next {
        return Ok(None);
    }
    Ok(Some((phase, at)))
}

/// The bound of a look that the phase of this number is over.
fn completion_taken(
    record: &Record,
    tally: &Tally,
    o: u32,
    at: u32,
    a: i64,
) -> Result<Option<(u32, u32)>, NoMemory>
    requires tally { IsTallyOf (recorded_of record.now) tally.now }
    requires small { ArePlacesSmall (recorded_of record.now) }
    ensures { IfOk result (λ k. k ≡ taken_as (recorded_of record.now) o Row.Completion at a) }
{
    let seen = count(record, tally, o, at as u64)?;
    match small(a) {
        None => Ok(None),
        Some(last) => {
            if last < seen {
                Ok(Some((0, last + 1)))
            } else {
                Ok(Some((0, seen)))
            }
        }
    }
}

/// The number of an object and a row.
pub(crate) fn class_of(o: u32, row: Row) -> u64
    ensures { result ≡ class_of o row }
{
    o as u64 * 16 + row.number()
}

/// What a change gives that stands at this node, on the left of a row.
fn give_at(
    record: &Record,
    tally: &Tally,
    node: u32,
    o: u32,
    row: Row,
    position: u32,
    a: i64,
) -> Result<Option<Give>, NoMemory>
    requires tally { IsTallyOf (recorded_of record.now) tally.now }
    requires small { ArePlacesSmall (recorded_of record.now) }
    ensures value { IfOk result (λ g. g ≡ give_in (recorded_of record.now) o position a node (Some row)) }
    ensures small { IfOk result (λ g. MayBeSmall g) }
{
    let ends = given_as(record, tally, o, row, position, a)?;
    match ends {
        None => Ok(None),
        Some((key, place)) => Ok(Some(give(class_of(o, row), key, place, node))),
    }
}

/// What is given at a node.
fn give(class: u64, key: u32, place: u32, node: u32) -> Give
    ensures value { result ≡ record { class = class; key = key; place = place; node = node } }
    ensures small { IsSmall result }
{
    Give {
        class,
        key,
        place,
        node,
    }
}

/// What an item gives that stands at this node.
fn give_of(
    plan: &Plan,
    record: &Record,
    tally: &Tally,
    node: u32,
    item: Item,
) -> Result<Option<Give>, NoMemory>
    requires tally { IsTallyOf (recorded_of record.now) tally.now }
    requires small { ArePlacesSmall (recorded_of record.now) }
    ensures value { IfOk result (λ g. g ≡ give_of (scene_of plan.now) (recorded_of record.now) node item) }
    ensures small { IfOk result (λ g. MayBeSmall g) }
{
    match item {
        Item::Change(o, position, entry) => match row_of(plan, o, entry) {
            None => Ok(None),
            Some(row) => give_at(record, tally, node, o.0, row, position, entry.a),
        },
        _ => Ok(None),
    }
}

/// The row on whose left a change of an object stands, if any.
fn row_of(plan: &Plan, o: ObjectNo, entry: Entry) -> Option<Row>
    ensures { result ≡ row_of (scene_of plan.now) o.0 entry.op }
{
    match plan.object(o) {
        None => None,
        Some(object) => given(object.kind(), entry.op),
    }
}

/// Puts what an item gives, if anything.
fn put_give(gives: &mut Vec<Give>, give: Option<Give>) -> Result<(), NoMemory>
    requires before { AreSmall gives.old.items }
    requires small { MayBeSmall give }
    ensures put { IfOk result (λ _. gives.new.items ≡ gives.old.items ++ option_to_list give) }
    ensures after { IfOk result (λ _. AreSmall gives.new.items) }
{
    match give {
        None => Ok(()),
        Some(give) => {
            gives.push(give)?;
            Ok(())
        }
    }
}

/// Puts what the items of a list give, of which the first stands at this node.
fn put_gives(
    plan: &Plan,
    record: &Record,
    tally: &Tally,
    gives: &mut Vec<Give>,
    first: u32,
    list: &[Item],
) -> Result<(), NoMemory>
    requires tally { IsTallyOf (recorded_of record.now) tally.now }
    requires small { ArePlacesSmall (recorded_of record.now) }
    requires before { AreSmall gives.old.items }
    ensures put { IfOk result (λ _. gives.new.items ≡ gives.old.items ++ gives_in (scene_of plan.now) (recorded_of record.now) first list.now) }
    ensures after { IfOk result (λ _. AreSmall gives.new.items) }
{
    let mut node = first;
    for i in 0..list.len() {
        let item = item_at(list, i);
        let give = give_of(plan, record, tally, node, item)?;
        put_give(gives, give)?;
        node = sum(node, 1)?;
    }
    Ok(())
}

/// What all items of a record give.
fn gives(
    alloc: Global,
    plan: &Plan,
    record: &Record,
    tally: &Tally,
    firsts: &[u32],
) -> Result<Vec<Give>, NoMemory>
    requires tally { IsTallyOf (recorded_of record.now) tally.now }
    requires small { ArePlacesSmall (recorded_of record.now) }
    requires firsts { AreFirsts (recorded_of record.now) firsts.now }
    ensures all { IfOk result (λ v. v.items ≡ gives_from (scene_of plan.now) (recorded_of record.now) 0 (recorded_of record.now).lists) }
    ensures small { IfOk result (λ v. AreSmall v.items) }
{
    let mut gives = Vec::new(alloc);
    for t in 0..record.lists.len() {
        let first = firsts[t];
        put_gives(plan, record, tally, &mut gives, first, list_at(record, t))?;
    }
    Ok(gives)
}

/// The hubs of what all items of a record give.
pub(crate) fn hubs(
    alloc: Global,
    plan: &Plan,
    record: &Record,
    tally: &Tally,
    firsts: &[u32],
) -> Result<Hubs, NoMemory>
    requires tally { IsTallyOf (recorded_of record.now) tally.now }
    requires small { ArePlacesSmall (recorded_of record.now) }
    requires firsts { AreFirsts (recorded_of record.now) firsts.now }
    ensures all { IfOk result (λ h. AreGives (scene_of plan.now) (recorded_of record.now) h.gives.items) }
    ensures small { IfOk result (λ h. AreSmall h.gives.items) }
{
    let gives = gives(alloc, plan, record, tally, firsts)?;
    let hubs = Hubs::of(gives)?;
    Ok(hubs)
}
