//! The steps on the shared table: each keeps the rule.
ghost use Rattle.std.specs.Prelude.{◌≡◌, ◌<◌, ◌≤◌, ◌^◌, ◌∷◌, [], ◌++◌, ℕ, true, false, None, Some, length, MatchBool};
ghost use mathlib.Core.List.{IsPrefix};
ghost use Rattle.aircraft_core.specs.declared.entry.Entry.{Entry};
ghost use Rattle.link_threads.specs.Seats.{IsSeatAt, IsSameSeat, IsIdle, HasAircraft};
ghost use Rattle.link_threads.specs.Turns.{HasTurn, with_turn, counted, freed, noted, joined, dealt, left_over, AreBegun};

use crate::known::{Board, Place};
use crate::plays::{Counts, Deals, Frees, Joins, Looks, Notes, Tries};
use aircraft_core::Craft;
use std::sync::Wait;
use std::thread;

/// Tries to get the turn.
fn try_turn(board: &Board, seat: &mut Place) -> bool
    requires seat { IsSeatAt board.now.table_id seat.old }
    requires idle { IsIdle board.now.key seat.old.me }
    requires listed { 1 ≤ length seat.old.me.0.lists }
    ensures same { IsSameSeat seat.old seat.new }
    ensures turn { MatchBool result (HasTurn seat.old.me seat.new.me) (seat.new.me ≡ seat.old.me) }
{
    board.compare_exchange::<Tries>(seat, 1, 0, 1) == 0
}

/// Waits until the seat has the turn.
fn wait_turn<Rt: Wait>(rt: &Rt, board: &Board, seat: &mut Place)
    requires seat { IsSeatAt board.now.table_id seat.old }
    requires idle { IsIdle board.now.key seat.old.me }
    requires listed { 1 ≤ length seat.old.me.0.lists }
    ensures same { IsSameSeat seat.old seat.new }
    ensures turn { HasTurn seat.old.me seat.new.me }
{
    for _ in rt.forever() {
        if try_turn(board, seat) {
            return;
        }
        thread::yield_now();
    }
    unreachable!()
}

/// Waits for the turn, and takes the aircraft.
pub(crate) fn fetch<Rt: Wait>(rt: &Rt, board: &Board, seat: &mut Place) -> Craft
    requires seat { IsSeatAt board.now.table_id seat.old }
    requires idle { IsIdle board.now.key seat.old.me }
    requires listed { 1 ≤ length seat.old.me.0.lists }
    ensures same { IsSameSeat seat.old seat.new }
    ensures extends { IsPrefix seat.old.me.0.seen result.journal }
    ensures setting { result.setting ≡ board.now.key.craft.value.setting }
    ensures now { seat.new.me ≡ (with_turn seat.old.me.0 result.journal, (0, None) ∷ []) }
{
    wait_turn(rt, board, seat);
    match board.exchange(seat, 0, None) {
        Some(craft) => craft,
        None => unreachable!(),
    }
}

/// Puts the aircraft into the slot.
fn put(board: &Board, seat: &mut Place, craft: Craft)
    requires seat { IsSeatAt board.now.table_id seat.old }
    requires slot { seat.old.me.1 ≡ (0, None) ∷ [] }
    ensures same { IsSameSeat seat.old seat.new }
    ensures now { seat.new.me ≡ (seat.old.me.0, (0, Some craft) ∷ []) }
{
    let _ = board.exchange(seat, 0, Some(craft));
}

/// Counts the entry that the aircraft in the slot has taken.
fn count(board: &Board, seat: &mut Place, craft: Craft)
    requires seat { IsSeatAt board.now.table_id seat.old }
    requires turn { seat.old.me.0.turn ≡ true }
    requires slot { seat.old.me.1 ≡ (0, None) ∷ [] }
    requires entry { (entry : Entry) × (craft.journal ≡ seat.old.me.0.seen ++ entry ∷ []) }
    ensures same { IsSameSeat seat.old seat.new }
    ensures now { seat.new.me ≡ (counted seat.old.me.0 craft.journal, (0, Some craft) ∷ []) }
{
    let _len = entries(&craft);
    put(board, seat, craft);
    board.fetch_add::<Counts>(seat, 0, 1);
}

/// How many entries the journal has.
fn entries(craft: &Craft) -> usize
    ensures len { result ≡ length craft.now.journal }
    ensures fits { length craft.now.journal < 2 ^ 64 }
{
    craft.journal().len()
}

/// Ends the turn, with the aircraft in the slot.
fn free(board: &Board, seat: &mut Place)
    requires seat { IsSeatAt board.now.table_id seat.old }
    requires turn { seat.old.me.0.turn ≡ true }
    requires whole { HasAircraft board.now.key seat.old.me }
    ensures same { IsSameSeat seat.old seat.new }
    ensures now { seat.new.me ≡ (freed seat.old.me.0, []) }
{
    board.store::<Frees>(seat, 1, 0);
}

/// Puts the aircraft back as it was, and ends the turn.
pub(crate) fn leave(board: &Board, seat: &mut Place, craft: Craft)
    requires seat { IsSeatAt board.now.table_id seat.old }
    requires turn { seat.old.me.0.turn ≡ true }
    requires slot { seat.old.me.1 ≡ (0, None) ∷ [] }
    requires journal { craft.journal ≡ seat.old.me.0.seen }
    requires setting { craft.setting ≡ board.now.key.craft.value.setting }
    ensures same { IsSameSeat seat.old seat.new }
    ensures now { seat.new.me ≡ (freed seat.old.me.0, []) }
{
    put(board, seat, craft);
    free(board, seat);
}

/// Puts the aircraft back with one more entry, which is the seat's, and ends the turn.
pub(crate) fn enter(board: &Board, seat: &mut Place, craft: Craft)
    requires seat { IsSeatAt board.now.table_id seat.old }
    requires turn { seat.old.me.0.turn ≡ true }
    requires slot { seat.old.me.1 ≡ (0, None) ∷ [] }
    requires entry { (entry : Entry) × (craft.journal ≡ seat.old.me.0.seen ++ entry ∷ []) }
    requires setting { craft.setting ≡ board.now.key.craft.value.setting }
    ensures same { IsSameSeat seat.old seat.new }
    ensures now { seat.new.me ≡ (freed (counted seat.old.me.0 craft.journal), []) }
{
    count(board, seat, craft);
    free(board, seat);
}

/// Gives the seat's first list to a seat of its own.
pub(crate) fn deal(board: &Board, seat: &mut Place) -> Place
    requires seat { IsSeatAt board.now.table_id seat.old }
    requires idle { IsIdle board.now.key seat.old.me }
    requires listed { 1 ≤ length seat.old.me.0.lists }
    ensures same { IsSameSeat seat.old seat.new }
    ensures now { seat.new.me ≡ (left_over seat.old.me.0, []) }
    ensures table { result.table_id ≡ seat.old.table_id }
    ensures dealt { result.me ≡ (dealt seat.old.me.0, []) }
{
    board.split_seat::<Deals>(seat)
}

/// A note of what the seat has seen.
pub(crate) fn note(board: &Board, seat: &mut Place) -> Place
    requires seat { IsSeatAt board.now.table_id seat.old }
    requires idle { IsIdle board.now.key seat.old.me }
    ensures same { IsSameSeat seat.old seat.new }
    ensures now { seat.new.me ≡ seat.old.me }
    ensures table { result.table_id ≡ seat.old.table_id }
    ensures noted { result.me ≡ (noted seat.old.me.0, []) }
{
    board.split_seat::<Notes>(seat)
}

/// Takes in another seat.
pub(crate) fn join(board: &Board, seat: &mut Place, other: Place)
    requires seat { IsSeatAt board.now.table_id seat.old }
    requires other { IsSeatAt board.now.table_id other }
    requires idle { IsIdle board.now.key seat.old.me }
    requires other_idle { IsIdle board.now.key other.me }
    ensures same { IsSameSeat seat.old seat.new }
    ensures now { seat.new.me ≡ (joined seat.old.me.0 other.me.0, []) }
{
    board.join_seat::<Joins>(seat, other);
}

/// Compares what the seat was told of with what it has seen.
pub(crate) fn look(board: &Board, seat: &mut Place)
    requires seat { IsSeatAt board.now.table_id seat.old }
    requires idle { IsIdle board.now.key seat.old.me }
    ensures same { IsSameSeat seat.old seat.new }
    ensures now { seat.new.me ≡ seat.old.me }
    ensures begun { AreBegun seat.old.me.0 }
{
    board.load::<Looks>(seat, 0);
}
