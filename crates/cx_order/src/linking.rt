ghost use Rattle.std.specs.Prelude.{◌≡◌, ℕ, ◌≤◌, ◌<◌, ◌+◌, ◌^◌, Option, Some, None, length, slice_get, IfOk};
ghost use Rattle.cx_history.specs.Histories.{list_of};
ghost use Rattle.cx_history.specs.Views.{recorded_of};
ghost use Rattle.cx_items.specs.declared.item.Control.TheVariants as controls;
ghost use Rattle.cx_graph.specs.Graph.{Adds, ArcOf};
ghost use Rattle.cx_order.specs.Arcs.{MainArc, StartArc, ControlArc, OneMainArc, NextArc, KeyArc, RowArc, RowsArc, ItemArc, OneItemArc, ListArc};
ghost use Rattle.cx_order.specs.Counts.{has_small_place};
ghost use Rattle.cx_order.specs.Parts.{IsParts, HasRoom, is_apt};

use crate::firsts::{item_at, list_at, number, sum};
use crate::gives::{class_of, taken_as};
use crate::parts::{Act, Parts};
use crate::row::{Row, rows_of_change, rows_of_look};
use cx_graph::Graph;
use cx_items::{Control, Item};
use cx_names::NoMemory;

/// The arc to an act on the right of a row.
fn link_row(
    graph: &mut Graph,
    parts: &Parts<'_>,
    row: Row,
    act: &Act,
    target: u32,
) -> Result<(), NoMemory>
    requires parts { IsParts parts.now }
    requires room { HasRoom parts.now graph.old.nodes.items }
    requires small { act.now.at < 4294967294 }
    ensures { IfOk result (λ _. Adds graph.old.nodes.items graph.new.nodes.items (RowArc (recorded_of parts.now.record.now) parts.now.hubs.now.gives.items parts.now.base act.now.object row act.now.at act.now.a target)) }
{
    let ends = taken_as(parts.record, parts.tally, act.object, row, act.at, act.a)?;
    match ends {
        None => Ok(()),
        Some((key, bound)) => {
            let class = class_of(act.object, row);
            graph.link_taker(parts.hubs, parts.base, class, key, bound, target)?;
            Ok(())
        }
    }
}

/// Row `k` of these.
fn row_at(rows: &[Row], k: usize) -> Row
    requires { k < length rows.now }
    ensures { slice_get rows.now k ≡ Some result }
{
    rows[k]
}

/// The arcs to an act on the right of these rows.
fn link_rows(
    graph: &mut Graph,
    parts: &Parts<'_>,
    rows: &[Row],
    act: &Act,
    target: u32,
) -> Result<(), NoMemory>
    requires parts { IsParts parts.now }
    requires room { HasRoom parts.now graph.old.nodes.items }
    requires small { act.now.at < 4294967294 }
    ensures { IfOk result (λ _. Adds graph.old.nodes.items graph.new.nodes.items (RowsArc (recorded_of parts.now.record.now) parts.now.hubs.now.gives.items parts.now.base act.now.object rows.now act.now.at act.now.a target)) }
{
    for k in 0..rows.len() {
        let row = row_at(rows, k);
        link_row(graph, parts, row, act, target)?;
    }
    Ok(())
}

/// The arcs to an item, which lead to this node.
fn link_item(graph: &mut Graph, parts: &Parts<'_>, item: Item, target: u32) -> Result<(), NoMemory>
    requires parts { IsParts parts.now }
    requires room { HasRoom parts.now graph.old.nodes.items }
    requires small { has_small_place item }
    ensures { IfOk result (λ _. Adds graph.old.nodes.items graph.new.nodes.items (ItemArc (recorded_of parts.now.record.now) parts.now.hubs.now.gives.items parts.now.base target item)) }
{
    match item {
        Item::Change(o, position, entry) => {
            let act = Act {
                object: o.0,
                at: position,
                a: entry.a,
            };
            let rows = rows_of_change(entry.op, entry.reply);
            link_rows(graph, parts, rows, &act, target)?;
            Ok(())
        }
        Item::Look(o, look) => {
            let act = Act {
                object: o.0,
                at: look.at,
                a: look.a,
            };
            let rows = rows_of_look(look.op, look.reply);
            link_rows(graph, parts, rows, &act, target)?;
            Ok(())
        }
        _ => Ok(()),
    }
}

/// The arcs to the items of thread `t`.
fn link_list(graph: &mut Graph, parts: &Parts<'_>, t: u32) -> Result<(), NoMemory>
    requires parts { IsParts parts.now }
    requires room { HasRoom parts.now graph.old.nodes.items }
    requires thread { t < length (recorded_of parts.now.record.now).lists }
    ensures { IfOk result (λ _. Adds graph.old.nodes.items graph.new.nodes.items (ListArc (recorded_of parts.now.record.now) parts.now.hubs.now.gives.items parts.now.base t)) }
{
    let list = list_at(parts.record, t as usize);
    let first = parts.firsts[t as usize];
    let mut target = first;
    for i in 0..list.len() {
        target = sum(target, 1)?;
        let item = item_at(list, i);
        link_item(graph, parts, item, target)?;
    }
    Ok(())
}

/// The arcs to all items.
pub(crate) fn link_lists(graph: &mut Graph, parts: &Parts<'_>) -> Result<(), NoMemory>
    requires parts { IsParts parts.now }
    requires room { HasRoom parts.now graph.old.nodes.items }
    ensures { IfOk result (λ _. Adds graph.old.nodes.items graph.new.nodes.items (ArcOf (ListArc (recorded_of parts.now.record.now) parts.now.hubs.now.gives.items parts.now.base) (length (recorded_of parts.now.record.now).lists))) }
{
    for t in 0..parts.record.lists.len() {
        let n = number(t)?;
        link_list(graph, parts, n)?;
    }
    Ok(())
}

/// The arcs from each point to the next of its list.
pub(crate) fn link_points(graph: &mut Graph, parts: &Parts<'_>) -> Result<(), NoMemory>
    requires parts { IsParts parts.now }
    requires room { HasRoom parts.now graph.old.nodes.items }
    ensures { IfOk result (λ _. Adds graph.old.nodes.items graph.new.nodes.items (ArcOf (NextArc (recorded_of parts.now.record.now)) (length (recorded_of parts.now.record.now).lists))) }
{
    for t in 0..parts.record.lists.len() {
        let list = list_at(parts.record, t);
        let first = parts.firsts[t];
        let count = number(list.len())?;
        graph.link_chain(first, count)?;
    }
    Ok(())
}

/// The arc of a start of thread `t` at this node, if there was a thread to be had.
fn link_start(
    graph: &mut Graph,
    parts: &Parts<'_>,
    node: u32,
    t: u32,
    ok: bool,
) -> Result<(), NoMemory>
    requires parts { IsParts parts.now }
    requires room { HasRoom parts.now graph.old.nodes.items }
    requires thread { t < length (recorded_of parts.now.record.now).lists }
    requires node { node < parts.now.base }
    ensures { IfOk result (λ _. Adds graph.old.nodes.items graph.new.nodes.items (StartArc (recorded_of parts.now.record.now) node t ok)) }
{
    if !ok {
        return Ok(());
    }
    let first = parts.firsts[t as usize];
    graph.link(node, first)?;
    Ok(())
}

/// The arc of a join of thread `t` at this node.
fn link_join(graph: &mut Graph, parts: &Parts<'_>, node: u32, t: u32) -> Result<(), NoMemory>
    requires parts { IsParts parts.now }
    requires room { HasRoom parts.now graph.old.nodes.items }
    requires thread { t < length (recorded_of parts.now.record.now).lists }
    requires node { node < parts.now.base }
    ensures { IfOk result (λ _. Adds graph.old.nodes.items graph.new.nodes.items (ControlArc (recorded_of parts.now.record.now) node (controls.Join (record { 0 = t })))) }
{
    let behind = parts.firsts[t as usize + 1];
    graph.link(behind - 1, node + 1)?;
    Ok(())
}

/// The arc of an item of main at this node.
fn link_main_item(
    graph: &mut Graph,
    parts: &Parts<'_>,
    node: u32,
    item: Item,
) -> Result<(), NoMemory>
    requires parts { IsParts parts.now }
    requires room { HasRoom parts.now graph.old.nodes.items }
    requires thread { is_apt (recorded_of parts.now.record.now) item }
    requires node { node < parts.now.base }
    ensures { IfOk result (λ _. Adds graph.old.nodes.items graph.new.nodes.items (MainArc (recorded_of parts.now.record.now) node item)) }
{
    match item {
        Item::Control(Control::Start(t, ok)) => link_start(graph, parts, node, t.0, ok),
        Item::Control(Control::Launch(t, ok)) => link_start(graph, parts, node, t.0, ok),
        Item::Control(Control::Join(t)) => link_join(graph, parts, node, t.0),
        _ => Ok(()),
    }
}

/// The arcs of main's items, the first of which stands at node 0.
pub(crate) fn link_main(graph: &mut Graph, parts: &Parts<'_>) -> Result<(), NoMemory>
    requires parts { IsParts parts.now }
    requires room { HasRoom parts.now graph.old.nodes.items }
    ensures { IfOk result (λ _. Adds graph.old.nodes.items graph.new.nodes.items (ArcOf (OneMainArc (recorded_of parts.now.record.now)) (length (list_of (recorded_of parts.now.record.now) 0)))) }
{
    if parts.record.lists.is_empty() {
        return Ok(());
    }
    let list = list_at(parts.record, 0);
    for i in 0..list.len() {
        let node = number(i)?;
        let item = item_at(list, i);
        link_main_item(graph, parts, node, item)?;
    }
    Ok(())
}
