ghost use Rattle.std.specs.Prelude.{◌≡◌};
ghost use Rattle.cx_scene.specs.Scene.{Scene};
ghost use Rattle.cx_history.specs.Histories.{Recorded};
ghost use Rattle.cx_order.specs.Points.{point, IsPoint};
ghost use Rattle.cx_order.specs.Edges.{Reaches, Tells};
ghost use Rattle.cx_order.specs.Order.{IsOrderOf, before_in};

use crate::clocks::Clock;
use cx_names::ThreadNo;

/// The synchronization order of a record: for each thread, how far along its list those points go that reach each point.
#[derive(Drop)]
pub struct Order {
    pub firsts: Vec<u32>,
    pub clocks: Vec<Clock>,
}

/// The order of a record, or the least point that reaches itself.
#[derive(Drop)]
pub enum Ordered {
    Order(Order),
    Cycle { thread: ThreadNo, point: u32 },
}

impl Order {
    /// Whether point `i` of thread `t` reaches point `j` of thread `u`; both are points of the record of which this is the order.
    pub fn before(&self, t: ThreadNo, i: u32, u: ThreadNo, j: u32) -> bool
        ensures value { result ≡ before_in self.now t.0 i u.0 j }
        ensures exact { (s : Scene) (r : Recorded) → IsOrderOf s r self.now → IsPoint r (point t.0 i) → IsPoint r (point u.0 j) → Tells result (Reaches s r (point t.0 i) (point u.0 j)) }
    {
        match self.firsts.get(u.0 as usize) {
            None => false,
            Some(first) => match self.clocks.get(t.0 as usize) {
                None => false,
                Some(clock) => clock.is_past(*first as usize + j as usize, i),
            },
        }
    }
}
