//! The rule of the table, and what each step tells.
use crate::database::Database;
use crate::history::Event;
use atomic_table::{Join, Play, Seat, Split, Table, TableRule};
use std::collections::LinkedList;
use std::marker::Brand;
use std::snapshot::Snapshot;

/// What a seat knew when it was joined.
pub struct Note {
    pub numbers: LinkedList<u64>,
    pub seen: LinkedList<Event>,
}

/// What a seat knows. No value of it is made.
pub struct View {
    pub opening: Option<Snapshot<Database>>,
    pub passes: u64,
    pub numbers: LinkedList<u64>,
    pub seen: LinkedList<Event>,
    pub waits: bool,
    pub ticket: u64,
    pub turn: bool,
    pub one: Note,
    pub other: Note,
}

/// What the table is told when it is made.
#[derive(Drop)]
pub struct Start {
    pub database: Snapshot<Database>,
    pub passes: usize,
}

pub struct Law;

impl TableRule<Database, View, Start> for Law {
    ghost use Rattle.rm_live.specs.Ruled.{Ruled, first_view};

    ghost holds = { λ key. Ruled };

    ghost first = { first_view };
}

/// Draws a ticket.
pub struct Draw;

impl Play<Database, View> for Draw {
    ghost use Rattle.rm_live.specs.Ruled.{Drew};

    ghost then = { Drew };
}

/// Looks whether it is the seat's turn.
pub struct Look;

impl Play<Database, View> for Look {
    ghost use Rattle.rm_live.specs.Ruled.{Looked};

    ghost then = { Looked };
}

/// Which event ends the turn. Each call picks it.
pub trait Told {
    ghost use Rattle.rm_live.specs.declared.history.Event.{Event};

    ghost event: { Event };
}

impl Told for Brand {
    ghost use Rattle.rm_live.specs.Ruled.{no_event};

    ghost event = { no_event };
}

/// Ends the turn.
pub struct End<E> {
    of: std::marker::PhantomData<E>,
}

impl<E: Told> Play<Database, View> for End<E> {
    ghost use Rattle.rm_live.specs.Ruled.{Ended};

    ghost then = { Ended E.event };
}

/// Cuts a seat's numbers in two.
pub struct Halve;

impl Split<View> for Halve {
    ghost use Rattle.rm_live.specs.Ruled.{keeps_half, gives_half};

    ghost left = { keeps_half };

    ghost right = { gives_half };
}

/// Makes one seat of two.
pub struct Merge;

impl Join<View> for Merge {
    ghost use Rattle.rm_live.specs.Ruled.{merged, spent_view};

    ghost both = { merged };

    ghost spent = { spent_view };
}

/// What the joined seat learns of the lists that it was made of.
pub struct Meet;

impl Play<Database, View> for Meet {
    ghost use Rattle.rm_live.specs.Ruled.{Met};

    ghost then = { Met };
}

pub type Board = Table<Database, View, Start, Law, std::alloc::Global>;

pub type Place = Seat<Database, View>;
