//! Passes and notes, by which a thread knows what became of its entries.
ghost use Rattle.std.specs.Prelude.{◌≡◌};

use crate::known::Place;
use std::marker::Model;

/// A thread's pass: the right to enter entries into the shared aircraft's journal, and to read its
/// downlinks.
///
/// Contracts see which sharing it belongs to, the entries that it took (`mine`) and the journal
/// that it has seen (`seen`), which begins every later journal.
#[derive(Drop)]
pub struct Pass {
    pub(crate) seat: Place,
}

impl Model for Pass {
    ghost use Rattle.link_threads.specs.Passes.{PassState};

    ghost Value = { PassState };

    ghost use Rattle.link_threads.specs.Seats.{pass_of, IsPassSeat};

    ghost view = { λ pass. pass_of pass.seat };

    ghost invariant = { λ pass. IsPassSeat pass.seat };
}

/// A note of what a pass had seen, for another pass to meet. Contracts see which sharing it belongs
/// to, and the journal that the pass had seen.
#[derive(Drop)]
pub struct Note {
    pub(crate) seat: Place,
}

impl Model for Note {
    ghost use Rattle.link_threads.specs.Passes.{NoteState};

    ghost Value = { NoteState };

    ghost use Rattle.link_threads.specs.Seats.{note_of, IsNoteSeat};

    ghost view = { λ note. note_of note.seat };

    ghost invariant = { λ note. IsNoteSeat note.seat };
}
