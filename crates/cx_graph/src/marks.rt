ghost use Rattle.std.specs.Prelude.{◌≡◌, ℕ, ◌<◌, ◌+◌, [], length, IfOk};
ghost use Rattle.std.specs.List.{Contains};
ghost use Rattle.cx_graph.specs.Graph.{Arc, IsGraph};
ghost use Rattle.cx_graph.specs.Marks.{Spreads, Searching, Searched, mark_of};

use crate::graph::Graph;
use cx_names::NoMemory;
use std::alloc::Global;

/// The mark of each node, 0 for none, and the nodes whose arcs are still to be followed.
#[derive(Drop)]
pub struct Marks {
    pub values: Vec<u32>,
    pub waiting: Vec<u32>,
}

impl Marks {
    /// So many nodes without a mark.
    pub fn new(alloc: Global, count: usize) -> Result<Marks, NoMemory>
        ensures size { IfOk result (λ m. length m.values.items ≡ count) }
        ensures none { IfOk result (λ m. (b : ℕ) → mark_of m b ≡ 0) }
        ensures none_waits { IfOk result (λ m. m.waiting.items ≡ []) }
    {
        let mut values = Vec::new(alloc);
        for _node in 0..count {
            values.push(0)?;
        }
        Ok(Marks {
            values,
            waiting: Vec::new(alloc),
        })
    }

    /// Marks a node that has no mark yet.
    fn mark(&mut self, b: u32, value: u32) -> Result<(), NoMemory>
        requires node { b < length self.old.values.items }
        requires value { 0 < value }
        ensures { IfOk result (λ _. Spreads self.old self.new (λ x. x ≡ b) value) }
    {
        if self.values[b as usize] == 0 {
            self.values[b as usize] = value;
            self.waiting.push(b)?;
        }
        Ok(())
    }

    /// Marks the nodes without a mark to which an arc leads from node `a`.
    pub fn spread(&mut self, graph: &Graph, a: u32, value: u32) -> Result<(), NoMemory>
        requires graph { IsGraph graph.now.nodes.items }
        requires node { a < length graph.now.nodes.items }
        requires size { length self.old.values.items ≡ length graph.now.nodes.items }
        requires value { 0 < value }
        ensures { IfOk result (λ _. Spreads self.old self.new (Arc graph.now.nodes.items a) value) }
    {
        let node = &graph.nodes[a as usize];
        for b in node.next.iter() {
            self.mark(*b, value)?;
        }
        Ok(())
    }
}
