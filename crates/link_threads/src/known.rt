//! What a seat at the shared table knows, and the rule of the table.

use aircraft_core::{Craft, Entry};
use atomic_table::{Seat, Table, TableRule};
use std::alloc::Global;
use std::collections::LinkedList;
use std::snapshot::Snapshot;

/// The entries that one pass has taken, with the number of the pass. No value of it is made.
pub struct Held {
    /// The number of the pass.
    pub number: u64,
    /// The entries, in the order in which they were taken.
    pub entries: LinkedList<Entry>,
}

/// What a seat knows. No value of it is made.
pub struct Known {
    /// The craft with which the sharing began.
    pub start: Option<Craft>,
    /// The journal that the seat has seen.
    pub seen: LinkedList<Entry>,
    /// Other journals that it has seen or was told of.
    pub heard: LinkedList<LinkedList<Entry>>,
    /// The lists of the passes that it stands for: its own, and those that it has taken in.
    pub lists: LinkedList<Held>,
    /// Whether it has the turn.
    pub turn: bool,
}

/// What the rule is told at the start.
#[derive(Drop)]
pub struct Opening {
    /// The craft with which the sharing begins.
    pub craft: Snapshot<Craft>,
    /// How many passes there are.
    pub count: usize,
}

/// The rule: there is one journal, of which each seat knows a beginning and its own entries.
pub struct OneJournal;

impl TableRule<Option<Craft>, Known, Opening> for OneJournal {
    ghost use Rattle.link_threads.specs.Turns.{IsOneJournal, first_view};

    ghost holds = { IsOneJournal };

    ghost first = { first_view };
}

/// The table that the callers share.
pub(crate) type Desk = Table<Option<Craft>, Known, Opening, OneJournal, Global>;

/// The table as its steps see it.
pub(crate) type Board = atomic_table::Shared<Option<Craft>, Known, Opening, OneJournal>;

/// A seat at the table.
pub(crate) type Place = Seat<Option<Craft>, Known>;
