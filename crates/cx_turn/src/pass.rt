//! A caller's tokens on one turn.
ghost use Rattle.std.specs.Prelude.{◌≡◌, ℕ};

use crate::view::View;
use atomic_table::Badge;
use cx_names::ThreadNo;

/// A caller's token on one turn: what it has seen of the history, and what it may still do.
#[derive(Drop)]
pub struct Pass<M> {
    pub(crate) number: ThreadNo,
    pub(crate) len: u32,
    pub(crate) left: u32,
    pub(crate) share: u32,
    pub(crate) splits: u32,
    pub(crate) badge: Badge<View<M>>,
}

/// A part of a pass that goes from hand to hand. It has no number and makes no change.
#[derive(Drop)]
pub struct Note<M> {
    pub(crate) len: u32,
    pub(crate) left: u32,
    pub(crate) share: u32,
    pub(crate) badge: Badge<View<M>>,
}

impl<M> Pass<M> {
    /// The number of the thread that the pass makes changes as.
    pub fn number(&self) -> ThreadNo
        ensures { result ≡ self.now.number }
    {
        self.number
    }

    /// The length of the history last seen.
    pub fn len(&self) -> u32
        ensures { result ≡ self.now.len }
    {
        self.len
    }

    /// How many changes the pass may still make.
    pub fn left(&self) -> u32
        ensures { result ≡ self.now.left }
    {
        self.left
    }

    /// The pass's part of the state's pool.
    pub fn share(&self) -> u32
        ensures { result ≡ self.now.share }
    {
        self.share
    }
}

impl<M> Note<M> {
    /// A note of no turn, with nothing in it: what is left in the place of one that is moved out.
    pub fn blank() -> Note<M>
        ensures { (result.len ≡ 0) × (result.left ≡ 0) × (result.share ≡ 0) }
    {
        Note {
            len: 0,
            left: 0,
            share: 0,
            badge: Badge::blank(),
        }
    }

    /// The length of the history that the note has seen.
    pub fn len(&self) -> u32
        ensures { result ≡ self.now.len }
    {
        self.len
    }

    /// How many changes the note carries.
    pub fn left(&self) -> u32
        ensures { result ≡ self.now.left }
    {
        self.left
    }

    /// The note's part of the state's pool.
    pub fn share(&self) -> u32
        ensures { result ≡ self.now.share }
    {
        self.share
    }
}
