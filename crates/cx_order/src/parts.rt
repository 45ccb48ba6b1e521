use cx_graph::{Hubs, Tally};
use cx_history::Record;

/// What the arcs of a record are made from.
#[derive(Clone, Copy)]
pub(crate) struct Parts<'a> {
    pub record: &'a Record,
    /// Its `complete`s.
    pub tally: &'a Tally,
    /// The nodes of the first points of its lists.
    pub firsts: &'a [u32],
    /// What its items give.
    pub hubs: &'a Hubs,
    /// The node of the first hub.
    pub base: u32,
}

/// An act on the right of a row: its object, its position or stamp, and its number.
#[derive(Clone, Copy)]
pub(crate) struct Act {
    pub object: u32,
    pub at: u32,
    pub a: i64,
}
