//! Graphs on numbers, and which nodes reach which.
//!
//! A [`Graph`] has nodes with arcs. [`clock`] says of each node how far along a chain of nodes those go that reach it. What a path is stands in
//! `specs/Graph.antt`.
#![tactic(auto)]

mod clocks;
mod give;
mod graph;
mod hubs;
mod linking;
mod marks;
mod tally;

pub use clocks::clock;
pub use give::Give;
pub use graph::{Graph, Node};
pub use hubs::Hubs;
pub use tally::Tally;
