//! The table that passes step on.
ghost use Rattle.turnstile.specs.Steps.{Draws, Looks, Counts, Leaves, Learns, note, but_first, first_alone, joined, nobody};

use crate::slot::Slot;
use crate::world::{EntryOf, World};
use atomic_table::{Join, Play, Seat, Split, Table, TableRule};
use std::alloc::Global;
use std::collections::LinkedList;
use std::marker::PhantomData;

/// How many cells there are, and how many passes.
#[derive(Clone, Copy)]
pub struct Size {
    pub cells: u64,
    pub passes: u64,
}

/// A place in the order of a cell's turns.
pub struct Ticket {
    pub cell: u64,
    pub number: u64,
}

/// What a seat knows. No value of it is made.
pub struct View<E> {
    /// The passes that it has.
    pub numbers: LinkedList<u64>,
    /// How many passes were made, or more.
    pub made: u64,
    pub front: LinkedList<E>,
    /// Another's front, which is not yet part of its own.
    pub told: LinkedList<E>,
    /// How many tickets it drew in all.
    pub drawn: u64,
    /// The ticket that it waits with.
    pub drew: Option<Ticket>,
    /// The turns that it has, the last taken first.
    pub held: LinkedList<Ticket>,
}

pub struct TurnRule<W> {
    world: PhantomData<W>,
}

impl<W: World> TableRule<Slot<W::Cell>, View<W::Entry>, Size> for TurnRule<W> {
    ghost use Rattle.turnstile.specs.Kept.{Kept};
    ghost use Rattle.turnstile.specs.Steps.{starting};

    ghost holds = { λ k s. Kept W.by W.cell W.stands W.legal k.cells k.passes s };

    ghost first = { λ k. starting k.passes };
}

pub type Board<W> = Table<
    Slot<<W as World>::Cell>,
    View<<W as World>::Entry>,
    Size,
    TurnRule<W>,
    Global,
>;

pub type Place<W> = Seat<Slot<<W as World>::Cell>, View<<W as World>::Entry>>;

pub struct Draw;

impl<C, E> Play<Slot<C>, View<E>> for Draw {
    ghost then = { Draws };
}

pub struct Look<W> {
    world: PhantomData<W>,
}

impl<W: World> Play<Slot<W::Cell>, View<W::Entry>> for Look<W> {
    ghost then = { Looks W.by W.cell W.stands W.legal };
}

pub struct Count<W, E> {
    world: PhantomData<(W, E)>,
}

impl<W: World, E: EntryOf<W, W::Entry>> Play<Slot<W::Cell>, View<W::Entry>> for Count<W, E> {
    ghost then = { λ s m r m'. Counts W.by W.cell W.legal s.slots E.entry m m' };
}

pub struct Leave;

impl<C, E> Play<Slot<C>, View<E>> for Leave {
    ghost then = { Leaves };
}

pub struct Learn<W> {
    world: PhantomData<W>,
}

impl<W: World> Play<Slot<W::Cell>, View<W::Entry>> for Learn<W> {
    ghost then = { λ s m r m'. Learns W.by W.cell W.legal s.slots m m' };
}

pub struct Note;

impl<E> Split<View<E>> for Note {
    ghost left = { λ v. v };

    ghost right = { note };
}

pub struct Deal;

impl<E> Split<View<E>> for Deal {
    ghost left = { but_first };

    ghost right = { first_alone };
}

pub struct Gather;

impl<E> Join<View<E>> for Gather {
    ghost both = { joined };

    ghost spent = { nobody };
}
