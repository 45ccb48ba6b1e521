ghost use Rattle.std.specs.Prelude.{◌≡◌, ℕ, ◌<◌, ◌==◌, ◌++◌, ◌∷◌, [], length, IfOk, if◌then◌else◌};
ghost use Rattle.cx_graph.specs.Graph.{next_of};

use cx_names::NoMemory;
use std::alloc::Global;

/// A node: those to which an arc leads from it.
#[derive(Drop)]
pub struct Node {
    pub next: Vec<u32>,
}

/// A graph: its nodes by their numbers.
#[derive(Drop)]
pub struct Graph {
    pub nodes: Vec<Node>,
}

impl Graph {
    /// A graph of so many nodes without an arc.
    ///
    /// Errors: no memory for them.
    pub fn new(alloc: Global, count: usize) -> Result<Graph, NoMemory>
        ensures count { IfOk result (λ g. length g.nodes.items ≡ count) }
        ensures none { IfOk result (λ g. (a : ℕ) → next_of g.nodes.items a ≡ []) }
    {
        let mut nodes = Vec::new(alloc);
        for _node in 0..count {
            nodes.push(Node {
                next: Vec::new(alloc),
            })?;
        }
        Ok(Graph { nodes })
    }

    /// One more arc, from node `a` to node `b`.
    ///
    /// Errors: no memory for it.
    pub fn add(&mut self, a: u32, b: u32) -> Result<(), NoMemory>
        requires { a < length self.old.nodes.items }
        ensures count { IfOk result (λ _. length self.new.nodes.items ≡ length self.old.nodes.items) }
        ensures arcs { IfOk result (λ _. (x : ℕ) → next_of self.new.nodes.items x ≡ next_of self.old.nodes.items x ++ (if a == x then b ∷ [] else [])) }
    {
        self.nodes[a as usize].next.push(b)?;
        Ok(())
    }
}
