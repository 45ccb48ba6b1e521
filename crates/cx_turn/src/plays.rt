//! What each step tells.
//!
//! A step's change, look or split is named by a type parameter with ghost members, which the caller
//! picks. Such a type has no values.
ghost use Rattle.std.specs.Prelude.{ℕ, Option, None};
ghost use Rattle.cx_machine.specs.declared.kind.Entry.{Entry};
ghost use Rattle.cx_machine.specs.declared.kind.Look.{Look};
ghost use Rattle.cx_turn.specs.Turning.{took, changed, changed_last, looked, left, signalled, learned};
ghost use Rattle.cx_turn.specs.Views.{split_left, split_right, note_left, note_right, both_of, spent_view};
ghost use Rattle.cx_turn.specs.Picked.{some_entry, some_look};

use crate::view::{Desk, View};
use atomic_table::{Join, Play, Split};
use cx_machine::{Machine, Meaning};
use std::marker::{Brand, PhantomData};

/// The turn is taken, where it is free.
pub struct Take<M> {
    of: PhantomData<M>,
}

impl<M: Meaning, S: Machine<M>> Play<Desk<S>, View<M>> for Take<M> {
    ghost then = { took S.meaning S.fits M.Meaning };
}

/// A change.
pub trait Chosen {
    ghost entry: { Entry };
}

impl Chosen for Brand {
    ghost entry = { some_entry };
}

/// The history gets the change.
pub struct Change<E> {
    of: PhantomData<E>,
}

impl<M: Meaning, S, E: Chosen> Play<Desk<S>, View<M>> for Change<E> {
    ghost then = { changed M.Meaning E.entry };
}

/// The history gets the change, and the turn is given up.
pub struct LastChange<E> {
    of: PhantomData<E>,
}

impl<M: Meaning, S, E: Chosen> Play<Desk<S>, View<M>> for LastChange<E> {
    ghost then = { changed_last M.Meaning E.entry };
}

/// A look.
pub trait Shown {
    ghost look: { Look };
}

impl Shown for Brand {
    ghost look = { some_look };
}

/// The seat has made the look.
pub struct LookAt<L> {
    of: PhantomData<L>,
}

impl<M: Meaning, S, L: Shown> Play<Desk<S>, View<M>> for LookAt<L> {
    ghost then = { looked M.Meaning L.look };
}

/// The turn is given up.
pub struct Leave;

impl<M, S> Play<Desk<S>, View<M>> for Leave {
    ghost then = { left };
}

/// A wake word is set, or taken.
pub struct Signal;

impl<M, S> Play<Desk<S>, View<M>> for Signal {
    ghost then = { signalled };
}

/// The seat learns what is so of its view.
pub struct Learn;

impl<M: Meaning, S> Play<Desk<S>, View<M>> for Learn {
    ghost then = { learned M.Meaning };
}

/// What a split moves to the new seat.
pub trait Moved {
    ghost calls: { ℕ };

    ghost share: { ℕ };

    ghost id: { Option ℕ };
}

impl Moved for Brand {
    ghost calls = { 0 };

    ghost share = { 0 };

    ghost id = { None };
}

/// A pass is split off.
pub struct NewPass<C> {
    of: PhantomData<C>,
}

impl<M, C: Moved> Split<View<M>> for NewPass<C> {
    ghost left = { λ v. split_left v C.calls };

    ghost right = { λ v. split_right v C.calls };
}

/// A note is split off.
pub struct NewNote<C> {
    of: PhantomData<C>,
}

impl<M, C: Moved> Split<View<M>> for NewNote<C> {
    ghost left = { λ v. note_left v C.calls C.share C.id };

    ghost right = { λ v. note_right v C.calls C.share C.id };
}

/// Another seat is taken in.
pub struct TakeIn;

impl<M: Meaning> Join<View<M>> for TakeIn {
    ghost both = { both_of };

    ghost spent = { spent_view M.any };
}
