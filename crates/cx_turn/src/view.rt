//! What the slot holds, and what a seat knows.
use cx_machine::{Entry, Look};
use std::collections::LinkedList;

/// What the slot holds. While the turn is taken the state is out with the taker.
#[derive(Drop)]
pub enum Desk<S> {
    /// The turn is free.
    Home(S),
    /// The turn is taken.
    Away,
}

/// A pass that was taken in, by its number and the positions of its changes.
pub struct Gone {
    pub number: u32,
    pub mine: LinkedList<u32>,
}

/// What a seat knows. No value of it is made: proofs alone speak of it.
pub struct View<M> {
    /// False where the seat was taken in by another.
    pub live: bool,
    /// False where the seat is a note.
    pub counts: bool,
    /// Whether the seat has taken the turn. Else its place is idle.
    pub inside: bool,
    /// The thread that the seat makes changes as.
    pub number: u32,
    /// How many passes there may be.
    pub seats: u32,
    /// The state before the first change.
    pub start: M,
    /// The beginning of the history that the seat has seen.
    pub front: LinkedList<Entry>,
    /// The positions of the seat's own changes.
    pub mine: LinkedList<u32>,
    /// The seat's own looks.
    pub looks: LinkedList<Look>,
    /// How many changes it may still make.
    pub left: u32,
    /// Its part of the state's pool.
    pub share: u32,
    /// How many passes were split off. Of the first pass alone.
    pub splits: u32,
    /// The passes that it took in, itself or through another.
    pub taken: LinkedList<Gone>,
    /// The IDs that it holds.
    pub holds: LinkedList<u32>,
    /// The two fronts that it last brought together.
    pub met: LinkedList<LinkedList<Entry>>,
}
