ghost use Rattle.std.specs.Prelude.{◌≡◌, ℕ, ◌≤◌, ◌<◌, ◌+◌, suc, Option, Some, None, nat_lt, length, slice_get, slice_index, IfOk};
ghost use Rattle.cx_history.specs.Histories.{list_of};
ghost use Rattle.cx_history.specs.Views.{recorded_of};
ghost use Rattle.cx_order.specs.Arcs.{first_of, node_of};
ghost use Rattle.cx_order.specs.Parts.{IsParts};
ghost use Rattle.cx_order.specs.Graphs.{IsGraphOf, AreClocks, FirstPast, FirstIn};

use crate::firsts::{list_at, number, points};
use crate::parts::Parts;
use cx_graph::Graph;
use cx_names::NoMemory;
use std::alloc::Global;

/// How far along the list of one thread those points go that reach each node: the number, from 1, of the last one; 0 where none does.
#[derive(Drop)]
pub struct Clock {
    pub values: Vec<u32>,
}

impl Clock {
    /// Whether point `i` of the thread reaches this node.
    pub fn is_past(&self, node: usize, i: u32) -> bool
        ensures { result ≡ nat_lt i (slice_index self.now.values.items node) }
    {
        match self.values.get(node) {
            None => false,
            Some(value) => i < *value,
        }
    }
}

/// A clock for each list.
pub(crate) fn clocks(
    alloc: Global,
    graph: &Graph,
    parts: &Parts<'_>,
) -> Result<Vec<Clock>, NoMemory>
    requires parts { IsParts parts.now }
    requires graph { IsGraphOf parts.now graph.now.nodes.items }
    ensures { IfOk result (λ v. AreClocks (recorded_of parts.now.record.now) graph.now.nodes.items v.items) }
{
    let mut clocks = Vec::new(alloc);
    for t in 0..parts.record.lists.len() {
        let first = parts.firsts[t];
        let count = points(list_at(parts.record, t))?;
        let values = cx_graph::clock(alloc, graph, first, count)?;
        clocks.push(Clock { values })?;
    }
    Ok(clocks)
}

/// The first of `count` points, the first of which is node `first`, that is before itself.
fn first_past(clock: &Clock, first: u32, count: u32) -> Option<u32>
    ensures { FirstIn clock.now.values.items first count result }
{
    for i in 0..count {
        let past = clock.is_past(first as usize + i as usize, i);
        if past {
            return Some(i);
        }
    }
    None
}

/// The first thread with a point that reaches itself, and its first such point.
pub(crate) fn first_cycle(
    clocks: &[Clock],
    parts: &Parts<'_>,
) -> Result<Option<(u32, u32)>, NoMemory>
    requires parts { IsParts parts.now }
    requires count { length clocks.now ≡ length (recorded_of parts.now.record.now).lists }
    ensures { IfOk result (λ p. FirstPast (recorded_of parts.now.record.now) clocks.now p) }
{
    for t in 0..parts.record.lists.len() {
        let thread = number(t)?;
        let first = parts.firsts[t];
        let count = points(list_at(parts.record, t))?;
        let own = &clocks[t];
        let found = first_past(own, first, count);
        match found {
            Some(point) => return Ok(Some((thread, point))),
            None => {}
        }
    }
    Ok(None)
}
