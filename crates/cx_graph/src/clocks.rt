ghost use Rattle.std.specs.Prelude.{◌≡◌, ℕ, ◌<◌, ◌≤◌, ◌+◌, ◌^◌, length, IfOk};
ghost use Rattle.cx_graph.specs.Graph.{IsGraph, IsChain, IsClock};
ghost use Rattle.cx_graph.specs.Marks.{Searching, Searched};

use crate::graph::Graph;
use crate::marks::Marks;
use cx_names::NoMemory;
use std::alloc::Global;

/// Follows the arcs of all that wait.
fn follow(
    graph: &Graph,
    marks: &mut Marks,
    first: u32,
    count: u32,
    low: u32,
) -> Result<(), NoMemory>
    requires graph { IsGraph graph.now.nodes.items }
    requires low { low < count }
    requires searching { Searching graph.now.nodes.items first count low marks.old }
    ensures { IfOk result (λ _. Searched graph.now.nodes.items first count low marks.new) }
{
    while let Some(a) = marks.waiting.pop() {
        marks.spread(graph, a, low + 1)?;
    }
    Ok(())
}

/// How far along a chain of `count` nodes from `first` on those go that reach each node: the number, from 1, of the last one; 0 where none does.
///
/// Errors: no memory for it.
pub fn clock(alloc: Global, graph: &Graph, first: u32, count: u32) -> Result<Vec<u32>, NoMemory>
    requires graph { IsGraph graph.now.nodes.items }
    requires chain { IsChain graph.now.nodes.items first count }
    requires small { length graph.now.nodes.items < 2 ^ 32 }
    ensures { IfOk result (λ v. IsClock graph.now.nodes.items first count v.items) }
{
    let mut marks = Marks::new(alloc, graph.nodes.len())?;
    for i in (0..count).rev() {
        marks.spread(graph, first + i, i + 1)?;
        follow(graph, &mut marks, first, count, i)?;
    }
    Ok(marks.values)
}
