//! The shared aircraft.
ghost use Rattle.std.specs.Prelude.{◌≡◌, ◌≤◌, ◌<◌, length, All, IfOk, IfErr, IsOk, OnOk};
ghost use Rattle.aircraft_core.specs.Entries.{IsTakenBy};
ghost use Rattle.link_threads.specs.Passes.{IsPassOf, IsNewPassOf, IsNoteOf, HasEntered, HasLooked, AreBytesFrom, IsLonger, IsLeftBy};

use crate::closing::{bytes_from, craft_of, gather};
use crate::known::Desk;
use crate::opening::{deal_out, lay};
use crate::pass::{Note, Pass};
use crate::turns;
use adsc_io::NoMemory;
use aircraft_core::{Craft, Entry};
use std::alloc::Global;
use std::marker::Model;
use std::sync::Wait;

/// There was no memory to share the craft, which comes back.
#[derive(Drop)]
pub struct Unstarted {
    /// The craft.
    pub craft: Craft,
}

/// There was no memory to take the entry, which comes back.
#[derive(Drop)]
pub struct Untaken {
    /// The entry.
    pub entry: Entry,
}

/// There was no memory to end the sharing, of which all comes back.
#[derive(Drop)]
pub struct Unclosed {
    /// The shared aircraft.
    pub shared: Shared,
    /// Its passes.
    pub passes: Vec<Pass>,
}

/// An aircraft that several threads share, each with a pass of its own.
///
/// Contracts see which sharing it is, the aircraft's setting, the journal with which the sharing
/// began, and how many passes there are.
#[derive(Drop)]
pub struct Shared {
    table: Desk,
    count: usize,
}

impl Model for Shared {
    ghost use Rattle.link_threads.specs.Passes.{SharedState};

    ghost Value = { SharedState };

    ghost use Rattle.std.specs.Prelude.{◌≡◌, ◌≤◌};
    ghost use Rattle.link_threads.specs.Seats.{shared_of};

    ghost view = { λ shared. shared_of shared.table.shared.table_id shared.table.shared.key shared.count };

    ghost invariant = { λ shared. (shared.table.shared.table_id.words ≡ 2) × (shared.table.shared.table_id.slots ≡ 1) × (shared.table.shared.key.count ≡ shared.count) × (1 ≤ shared.count) };
}

impl Shared {
    /// Shares a craft, and makes 1 to 6 passes. No pass is made later.
    ///
    /// `Unstarted` comes for want of memory alone, and hands the craft back.
    pub fn start(
        alloc: Global,
        craft: Craft,
        count: usize,
    ) -> Result<(Shared, Vec<Pass>), Unstarted>
        requires count { (1 ≤ count) × (count ≤ 6) }
        ensures setting { IfOk result (λ made. made.0.setting ≡ craft.setting) }
        ensures start { IfOk result (λ made. made.0.start ≡ craft.journal) }
        ensures passes { IfOk result (λ made. made.0.passes ≡ count) }
        ensures made { IfOk result (λ made. length made.1.items ≡ count) }
        ensures new { IfOk result (λ made. All (IsNewPassOf made.0) made.1.items) }
        ensures back { IfErr result (λ refused. refused.craft ≡ craft) }
    {
        let Ok(mut passes) = Vec::with_capacity(alloc, count) else {
            return Err(Unstarted { craft });
        };
        let (table, seat) = lay(alloc, craft, count)?;
        deal_out(&table.shared, seat, count, &mut passes);
        Ok((Shared { table, count }, passes))
    }

    /// How many passes there are.
    pub fn passes(&self) -> usize
        ensures { result ≡ self.now.passes }
    {
        self.count
    }

    /// Waits for the turn, and enters an entry at the end of the journal.
    ///
    /// Ok says that the entry stands at the end of a journal that extends what the pass had seen,
    /// that the pass has seen this journal, and that the entry is the last that it took. `Untaken`
    /// comes for want of memory alone: the entry comes back and nothing was entered, but the pass
    /// may have seen more. The aircraft uses the allocator with which it was made.
    pub fn take<Rt: Wait>(
        &self,
        rt: &Rt,
        _alloc: Global,
        pass: &mut Pass,
        entry: Entry,
    ) -> Result<(), Untaken>
        requires pass { IsPassOf self.now pass.old }
        requires taken { IsTakenBy self.now.setting entry }
        ensures pass { IsPassOf self.now pass.new }
        ensures entered { OnOk result (HasEntered pass.old entry pass.new) }
        ensures looked { IfErr result (λ refused. HasLooked pass.old pass.new) }
        ensures back { IfErr result (λ refused. refused.entry ≡ entry) }
    {
        let board = &self.table.shared;
        let mut craft = turns::fetch(rt, board, &mut pass.seat);
        let Ok(()) = craft.reserve() else {
            turns::leave(board, &mut pass.seat, craft);
            return Err(Untaken { entry });
        };
        craft.apply(entry);
        turns::enter(board, &mut pass.seat, craft);
        Ok(())
    }

    /// Waits for the turn, and gives the bytes from a place on of a link's downlinks, each ended by
    /// a newline.
    ///
    /// They are the downlinks of a journal that extends what the pass had seen, and that it has then
    /// seen. A place past the end gives no bytes. `NoMemory` comes for want of memory alone, and
    /// changes nothing but that the pass may have seen more.
    pub fn collect<Rt: Wait>(
        &self,
        rt: &Rt,
        alloc: Global,
        pass: &mut Pass,
        link: usize,
        from: usize,
    ) -> Result<Vec<u8>, NoMemory>
        requires pass { IsPassOf self.now pass.old }
        requires link { link < length self.now.setting.addresses }
        ensures pass { IsPassOf self.now pass.new }
        ensures looked { HasLooked pass.old pass.new }
        ensures bytes { IfOk result (λ bytes. AreBytesFrom self.now.setting pass.new.seen link from bytes.items) }
    {
        let board = &self.table.shared;
        let craft = turns::fetch(rt, board, &mut pass.seat);
        let bytes = bytes_from(alloc, &craft, link, from);
        turns::leave(board, &mut pass.seat, craft);
        bytes
    }

    /// A note of what a pass has seen. It can't be refused, and changes nothing.
    pub fn note(&self, pass: &mut Pass) -> Note
        requires { IsPassOf self.now pass.old }
        ensures note { IsNoteOf self.now result }
        ensures seen { result.seen ≡ pass.old.seen }
        ensures same { pass.new ≡ pass.old }
    {
        Note {
            seat: turns::note(&self.table.shared, &mut pass.seat),
        }
    }

    /// Makes what a pass has seen the longer of its own and a note's, of which the shorter begins
    /// the longer.
    pub fn meet(&self, pass: &mut Pass, note: Note)
        requires pass { IsPassOf self.now pass.old }
        requires note { IsNoteOf self.now note }
        ensures pass { IsPassOf self.now pass.new }
        ensures mine { pass.new.mine ≡ pass.old.mine }
        ensures seen { IsLonger pass.old.seen note.seen pass.new.seen }
    {
        let board = &self.table.shared;
        let Note { seat } = note;
        turns::join(board, &mut pass.seat, seat);
        turns::look(board, &mut pass.seat);
    }

    /// Ends the sharing, with all passes, and gives the craft.
    ///
    /// Its setting is that of the start. Its journal is the one of the start, and then an
    /// interleaving of what the passes took, each list whole and in its order; what each pass has
    /// seen begins it. It takes no memory, so it is never refused: `Unclosed` doesn't come.
    pub fn close(self, _alloc: Global, passes: Vec<Pass>) -> Result<Craft, Unclosed>
        requires passes { All (IsPassOf self) passes.items }
        requires count { length passes.items ≡ self.passes }
        ensures ends { IsOk result }
        ensures left { IfOk result (IsLeftBy self passes.items) }
        ensures shared { IfErr result (λ refused. refused.shared ≡ self) }
        ensures back { IfErr result (λ refused. refused.passes.items ≡ passes.items) }
    {
        let Shared { table, count: _ } = self;
        let seat = gather(&table.shared, passes);
        Ok(craft_of(table, seat))
    }
}
