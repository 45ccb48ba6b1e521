ghost use Rattle.std.specs.Prelude.{◌≡◌, ◌≤◌, ◌<◌, ◌+◌, length, IfOk};
ghost use Rattle.cx_history.specs.Views.{recorded_of};
ghost use Rattle.cx_order.specs.Parts.{IsParts, HasRoom};
ghost use Rattle.cx_order.specs.Graphs.{AreNodesLow, IsGraphOf};

use crate::firsts::number;
use crate::linking::{link_lists, link_main, link_points};
use crate::parts::Parts;
use cx_graph::Graph;
use cx_names::NoMemory;
use std::alloc::Global;

/// How many nodes there are, for points and for hubs.
fn node_count(parts: &Parts<'_>) -> Result<u32, NoMemory>
    ensures value { IfOk result (λ n. n ≡ parts.now.base + length parts.now.hubs.now.gives.items) }
    ensures small { IfOk result (λ n. n < 4294967296) }
{
    number(parts.base as usize + parts.hubs.gives.len())
}

/// The graph of a record's edges.
pub(crate) fn graph_of(alloc: Global, parts: &Parts<'_>) -> Result<Graph, NoMemory>
    requires parts { IsParts parts.now }
    requires low { AreNodesLow parts.now }
    ensures { IfOk result (λ g. IsGraphOf parts.now g.nodes.items) }
{
    let total = node_count(parts)?;
    let mut graph = Graph::new(alloc, total as usize)?;
    link_points(&mut graph, parts)?;
    link_main(&mut graph, parts)?;
    graph.link_hubs(parts.hubs, parts.base)?;
    link_lists(&mut graph, parts)?;
    Ok(graph)
}
