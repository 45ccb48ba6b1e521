ghost use Rattle.std.specs.Prelude.{◌≡◌, ℕ, ◌<◌, ◌≤◌, ◌+◌, ◌^◌, length, slice_get, Some, IfOk};
ghost use Rattle.cx_graph.specs.Graph.{Adds, ChainArc, OneArc, ArcOf};
ghost use Rattle.cx_graph.specs.declared.give.Give.{Give as GiveSeen};
ghost use Rattle.cx_graph.specs.Hubs.{TakeArc, HubArcs, NextOf};

use crate::give::Give;
use crate::graph::Graph;
use crate::hubs::Hubs;
use cx_names::NoMemory;

impl Graph {
    /// An arc from node `a` to node `b`.
    ///
    /// Errors: no memory for it.
    pub fn link(&mut self, a: u32, b: u32) -> Result<(), NoMemory>
        requires { a < length self.old.nodes.items }
        ensures { IfOk result (λ _. Adds self.old.nodes.items self.new.nodes.items (OneArc a b)) }
    {
        self.add(a, b)?;
        Ok(())
    }

    /// An arc from each of `count` nodes from `first` on to the node after it.
    ///
    /// Errors: no memory for them.
    pub fn link_chain(&mut self, first: u32, count: u32) -> Result<(), NoMemory>
        requires within { first + count < length self.old.nodes.items }
        requires small { length self.old.nodes.items < 2 ^ 32 }
        ensures { IfOk result (λ _. Adds self.old.nodes.items self.new.nodes.items (ChainArc first count)) }
    {
        for i in 0..count {
            self.link(first + i, first + i + 1)?;
        }
        Ok(())
    }

    /// An arc from hub `x` to the next, where both are of one group.
    fn link_next(&mut self, hubs: &Hubs, base: u32, x: u32) -> Result<(), NoMemory>
        requires there { x < length hubs.now.gives.items }
        requires within { base + length hubs.now.gives.items ≤ length self.old.nodes.items }
        requires small { length self.old.nodes.items < 2 ^ 32 }
        ensures { IfOk result (λ _. Adds self.old.nodes.items self.new.nodes.items (NextOf hubs.now.gives.items base x)) }
    {
        let next = x as usize + 1;
        if next >= hubs.gives.len() {
            return Ok(());
        }
        let give = hubs.gives[x as usize];
        let after = hubs.gives[next];
        if give.group() != after.group() {
            return Ok(());
        }
        self.link(base + x, base + x + 1)?;
        Ok(())
    }

    /// The arcs of the give at place `x`: to its hub, and from there to the next of its group.
    fn link_hub(&mut self, hubs: &Hubs, base: u32, x: u32) -> Result<(), NoMemory>
        requires there { x < length hubs.now.gives.items }
        requires within { base + length hubs.now.gives.items ≤ length self.old.nodes.items }
        requires nodes { (k : ℕ) (g : GiveSeen) → slice_get hubs.now.gives.items k ≡ Some g → g.node < length self.old.nodes.items }
        requires small { length self.old.nodes.items < 2 ^ 32 }
        ensures { IfOk result (λ _. Adds self.old.nodes.items self.new.nodes.items (HubArcs hubs.now.gives.items base x)) }
    {
        let give = hubs.gives[x as usize];
        self.link(give.node, base + x)?;
        self.link_next(hubs, base, x)?;
        Ok(())
    }

    /// The arcs of all hubs; the hub of the first give is node `base`.
    ///
    /// Errors: no memory for them.
    pub fn link_hubs(&mut self, hubs: &Hubs, base: u32) -> Result<(), NoMemory>
        requires within { base + length hubs.now.gives.items ≤ length self.old.nodes.items }
        requires nodes { (k : ℕ) (g : GiveSeen) → slice_get hubs.now.gives.items k ≡ Some g → g.node < length self.old.nodes.items }
        requires small { length self.old.nodes.items < 2 ^ 32 }
        ensures { IfOk result (λ _. Adds self.old.nodes.items self.new.nodes.items (ArcOf (HubArcs hubs.now.gives.items base) (length hubs.now.gives.items))) }
    {
        for x in 0..hubs.gives.len() {
            self.link_hub(hubs, base, x as u32)?;
        }
        Ok(())
    }

    /// An arc to a taker, from the last hub of its class and key whose place is below its bound, if there is one.
    ///
    /// Errors: no memory for it.
    pub fn link_taker(
        &mut self,
        hubs: &Hubs,
        base: u32,
        class: u64,
        key: u32,
        bound: u32,
        target: u32,
    ) -> Result<(), NoMemory>
        requires within { base + length hubs.now.gives.items ≤ length self.old.nodes.items }
        requires small { length self.old.nodes.items < 2 ^ 32 }
        ensures { IfOk result (λ _. Adds self.old.nodes.items self.new.nodes.items (TakeArc hubs.now.gives.items base class key bound target)) }
    {
        match hubs.last(class, key, bound) {
            None => Ok(()),
            Some(x) => {
                self.link(base + x as u32, target)?;
                Ok(())
            }
        }
    }
}
