//! The synchronization order of a record: which points of its lists reach which.
//!
//! The definitions stand in `specs/`: `Points` has the points of the lists, `Table` the rows of the table of edges, `Edges` the edges and the
//! order that they make, and `Order` what [`order_of`] finds. `Arcs` has the same edges as arcs of a graph, and `proofs/Paths.antt` shows that
//! they make the same order.
#![tactic(auto)]

mod building;
mod clocks;
mod counting;
mod firsts;
mod gives;
mod linking;
mod ordered;
mod ordering;
mod parts;
mod row;

pub use clocks::Clock;
pub use ordered::{Order, Ordered};
pub use ordering::order_of;
pub use row::{ROWS, Row};
