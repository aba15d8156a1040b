//! How a sharing begins.
ghost use Rattle.std.specs.Prelude.{◌≡◌, ◌≤◌, ◌∷◌, [], length, All, IfOk, IfErr, Some, vec_capacity};
ghost use Rattle.aircraft_core.specs.Aircraft.{Aircraft};
ghost use Rattle.link_threads.specs.Seats.{IsSeatAt, IsIdle, IsNewPassAt};
ghost use Rattle.link_threads.specs.Turns.{first_view, empty_lists};

use crate::known::{Board, Desk, Opening, Place};
use crate::pass::Pass;
use crate::shared::Unstarted;
use crate::turns::deal;
use aircraft_core::Craft;
use atomic_table::{Refused, Table};
use std::alloc::Global;
use std::snapshot::Snapshot;

/// Lays the craft on a table of its own, with the first seat, which has the lists of all passes.
pub(crate) fn lay(alloc: Global, craft: Craft, count: usize) -> Result<(Desk, Place), Unstarted>
    requires { 1 ≤ count }
    ensures seat { IfOk result (λ laid. IsSeatAt laid.0.shared.table_id laid.1) }
    ensures craft { IfOk result (λ laid. laid.0.shared.key.craft.value ≡ craft) }
    ensures count { IfOk result (λ laid. laid.0.shared.key.count ≡ count) }
    ensures first { IfOk result (λ laid. laid.1.me ≡ (first_view laid.0.shared.key, [])) }
    ensures back { IfErr result (λ refused. refused.craft ≡ craft) }
{
    let words = [craft.journal().len() as u64, 0];
    let opening = Opening {
        craft: Snapshot::of(&craft),
        count,
    };
    let slots = in_slot(alloc, craft)?;
    match Table::new(alloc, &words, slots, &opening) {
        Ok(laid) => Ok(laid),
        Err(Refused { slots }) => Err(Unstarted {
            craft: out_of_slot(slots),
        }),
    }
}

/// The craft in a list of one slot.
fn in_slot(alloc: Global, craft: Craft) -> Result<Vec<Option<Craft>>, Unstarted>
    ensures slot { IfOk result (λ slots. slots.items ≡ Some craft ∷ []) }
    ensures back { IfErr result (λ refused. refused.craft ≡ craft) }
{
    let Ok(mut slots) = Vec::with_capacity(alloc, 1) else {
        return Err(Unstarted { craft });
    };
    slots.push_reserved(Some(craft));
    Ok(slots)
}

/// The craft out of a list of one slot.
fn out_of_slot(mut slots: Vec<Option<Craft>>) -> Craft
    requires { (craft : Aircraft) × (slots.items ≡ Some craft ∷ []) }
    ensures { slots.items ≡ Some result ∷ [] }
{
    match slots.pop() {
        Some(Some(craft)) => craft,
        _ => unreachable!(),
    }
}

/// Deals out the lists of the first seat, a pass for each.
pub(crate) fn deal_out(board: &Board, mut seat: Place, count: usize, passes: &mut Vec<Pass>)
    requires seat { IsSeatAt board.now.table_id seat }
    requires idle { IsIdle board.now.key seat.me }
    requires lists { seat.me.0.lists ≡ empty_lists count }
    requires seen { seat.me.0.seen ≡ board.now.key.craft.value.journal }
    requires none { passes.old.items ≡ [] }
    requires room { count ≤ vec_capacity passes.old }
    ensures count { length passes.new.items ≡ count }
    ensures new { All (IsNewPassAt board.now.table_id board.now.key) passes.new.items }
{
    let mut left = count;
    while left > 0 {
        left -= 1;
        passes.push_reserved(Pass {
            seat: deal(board, &mut seat),
        });
    }
}
