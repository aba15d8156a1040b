//! What each step on the shared table tells the caller.

use crate::known::Known;
use aircraft_core::Craft;
use atomic_table::{Join, Play, Split};

/// A try for the turn.
pub(crate) struct Tries;

impl Play<Option<Craft>, Known> for Tries {
    ghost use Rattle.link_threads.specs.Turns as turns;

    ghost then = { turns.Tries };
}

/// The count of one more entry.
pub(crate) struct Counts;

impl Play<Option<Craft>, Known> for Counts {
    ghost use Rattle.link_threads.specs.Turns as turns;

    ghost then = { turns.Counts };
}

/// The end of the turn.
pub(crate) struct Frees;

impl Play<Option<Craft>, Known> for Frees {
    ghost use Rattle.link_threads.specs.Turns as turns;

    ghost then = { turns.Frees };
}

/// A look at the count, which compares what was heard with what was seen.
pub(crate) struct Looks;

impl Play<Option<Craft>, Known> for Looks {
    ghost use Rattle.link_threads.specs.Turns as turns;

    ghost then = { turns.Looks };
}

/// The first list goes to a seat of its own.
pub(crate) struct Deals;

impl Split<Known> for Deals {
    ghost use Rattle.link_threads.specs.Turns.{left_over, dealt};

    ghost left = { left_over };

    ghost right = { dealt };
}

/// A copy of what was seen goes to a seat of its own.
pub(crate) struct Notes;

impl Split<Known> for Notes {
    ghost use Rattle.link_threads.specs.Turns.{noted};

    ghost left = { λ view. view };

    ghost right = { noted };
}

/// A seat takes in another.
pub(crate) struct Joins;

impl Join<Known> for Joins {
    ghost use Rattle.link_threads.specs.Turns.{joined, nobody};

    ghost both = { joined };

    ghost spent = { nobody };
}
