//! How a sharing ends, and what is read while it lasts.
ghost use Rattle.std.specs.Prelude.{◌≡◌, ◌≤◌, ◌<◌, [], ◌∷◌, false, length, drop, All, IfOk};
ghost use Rattle.link_threads.specs.Passes.{AreBytesFrom};
ghost use Rattle.link_threads.specs.Seats.{IsSeatAt, IsIdle, IsPassAt, HasTakenIn, HasGathered, IsLeft};
ghost use Rattle.link_threads.specs.Turns.{entries_held};

use crate::known::{Board, Desk, Place};
use crate::pass::Pass;
use crate::turns::join;
use adsc_io::NoMemory;
use aircraft_core::Craft;
use std::alloc::Global;

/// The bytes from a place on of a link's downlinks, each ended by a newline.
pub(crate) fn bytes_from(
    alloc: Global,
    craft: &Craft,
    link: usize,
    from: usize,
) -> Result<Vec<u8>, NoMemory>
    requires { link < length craft.now.setting.addresses }
    ensures { IfOk result (λ bytes. AreBytesFrom craft.now.setting craft.now.journal link from bytes.items) }
{
    let sent = craft.outbox(link);
    Ok(Vec::from_slice(alloc, behind(sent, from))?)
}

/// The bytes from a place on, none past the end.
fn behind(bytes: &[u8], from: usize) -> &[u8]
    ensures { result.now ≡ drop from bytes.now }
{
    if from < bytes.len() {
        &bytes[from..]
    } else {
        &[]
    }
}

/// The seat of a pass.
fn seat_of(pass: Pass) -> Place
    ensures table { result.table_id ≡ pass.sharing.table }
    ensures start { result.me.0.start ≡ pass.sharing.opening }
    ensures idle { (result.me.1 ≡ []) × (result.me.0.turn ≡ false) }
    ensures lists { entries_held result.me.0.lists ≡ pass.mine ∷ [] }
    ensures seen { result.me.0.seen ≡ pass.seen }
{
    let Pass { seat } = pass;
    seat
}

/// Takes in a pass, with its list before the others.
fn take_in(board: &Board, seat: &mut Place, pass: Pass)
    requires seat { IsSeatAt board.now.table_id seat.old }
    requires idle { IsIdle board.now.key seat.old.me }
    requires pass { IsPassAt board.now.table_id board.now.key pass }
    ensures seat { IsSeatAt board.now.table_id seat.new }
    ensures idle { IsIdle board.now.key seat.new.me }
    ensures taken { HasTakenIn seat.old.me.0 pass seat.new.me.0 }
{
    join(board, seat, seat_of(pass));
}

/// One seat that has taken in these passes.
pub(crate) fn gather(board: &Board, mut passes: Vec<Pass>) -> Place
    requires table { (board.now.table_id.words ≡ 2) × (board.now.table_id.slots ≡ 1) }
    requires passes { All (IsPassAt board.now.table_id board.now.key) passes.items }
    requires some { 1 ≤ length passes.items }
    ensures seat { IsSeatAt board.now.table_id result }
    ensures idle { IsIdle board.now.key result.me }
    ensures gathered { HasGathered passes.items [] result.me.0 }
{
    let Some(first) = passes.pop() else {
        unreachable!()
    };
    let mut seat = seat_of(first);
    while let Some(pass) = passes.pop() {
        take_in(board, &mut seat, pass);
    }
    seat
}

/// The craft, once one seat has taken in all passes.
pub(crate) fn craft_of(table: Desk, seat: Place) -> Craft
    requires seat { IsSeatAt table.shared.table_id seat }
    requires idle { IsIdle table.shared.key seat.me }
    requires all { length seat.me.0.lists ≡ table.shared.key.count }
    ensures { IsLeft table.shared.key seat.me.0 result }
{
    let mut closed = table.close_with(seat);
    let slot = closed.take(0);
    closed.free();
    match slot {
        Some(craft) => craft,
        None => unreachable!(),
    }
}
