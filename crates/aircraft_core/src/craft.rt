//! The aircraft's side of its links.
ghost use Rattle.std.specs.Prelude.{◌≡◌, ◌+◌, ◌<◌, ◌≤◌, [], ◌∷◌, ◌++◌, ℕ, List, All, length, OnOk, IfOk};
ghost use Rattle.std.specs.Option.{ForSome};
ghost use Rattle.adsc_io.specs.Lines.{ended_lines, script_lines};
ghost use Rattle.contract_rules.specs.Acts.{Act};
ghost use Rattle.contract_table.specs.Tables.{StandsFor};
ghost use Rattle.due_event.specs.RuleTerms.{rules_profile};
ghost use Rattle.aircraft_core.specs.Entries.{IsTakenBy};
ghost use Rattle.aircraft_core.specs.LogonStates.{logon_state};
ghost use Rattle.aircraft_core.specs.Outboxes.{outbox_of, entry_bytes};
ghost use Rattle.aircraft_core.specs.JournalActs.{JournalActs, newest_first};
ghost use Rattle.aircraft_core.specs.Downlinks.{AreDownlinks};
ghost use Rattle.aircraft_core.specs.Setting.{address_of, configuration_of};

use crate::entry::Entry;
use crate::logons::note;
use crate::making::{copied, empty_outboxes, no_logons};
use crate::outbox::Outbox;
use crate::room::enter;
use crate::setup::Setup;
use crate::taking::take;
use crate::who::Who;
use acars_envelope::{Address, Registration};
use adsc_io::NoMemory;
use afn_logon::Logon;
use contract_table::Table;
use flight_samples::Sample;
use std::alloc::Global;
use std::marker::Model;

/// The bytes that one entry may add to an outbox at most.
const ENTRY_BYTES: usize = 600;

/// An aircraft: its journal, the table of its contracts, and for each of its links the downlinks
/// that the journal makes due and how far its logon has come.
///
/// Contracts see what it was made with (`setting`), its journal, and for how many further entries
/// room is kept (`spare`). The type keeps that each outbox is the downlinks of the journal, that
/// the table stands for all acts of the journal, and that each logon is the state that the journal
/// makes of it.
#[derive(Drop)]
pub struct Craft {
    setup: Setup,
    latest: Sample,
    table: Table,
    journal: Vec<Entry>,
    outboxes: Vec<Outbox>,
    logons: Vec<Logon>,
}

impl Model for Craft {
    ghost use Rattle.aircraft_core.specs.Aircraft.{Aircraft};

    ghost Value = { Aircraft };

    ghost use Rattle.aircraft_core.specs.CraftFields.{aircraft_of, KeepsLinks};

    ghost view = { aircraft_of };

    ghost invariant = { KeepsLinks };
}

impl Craft {
    /// An aircraft with an empty journal, with a link to each of these 1 to 64 ground addresses,
    /// which all differ.
    ///
    /// One of the five connections is kept for the link of number `reserved`, if there is one.
    /// `NoMemory` comes for want of memory alone.
    pub fn new(
        alloc: Global,
        who: Who,
        links: &[Address],
        reserved: Option<u8>,
        first: Sample,
    ) -> Result<Craft, NoMemory>
        requires links { (1 ≤ length links.now) × (length links.now ≤ 64) }
        requires reserved { ForSome reserved (λ kept. kept < length links.now) }
        ensures registration { IfOk result (λ craft. craft.setting.registration
            ≡ who.registration) }
        ensures flight { IfOk result (λ craft. craft.setting.flight ≡ who.flight) }
        ensures airframe { IfOk result (λ craft. craft.setting.airframe ≡ who.airframe) }
        ensures profile { IfOk result (λ craft. craft.setting.profile ≡ rules_profile who.profile) }
        ensures addresses { IfOk result (λ craft. craft.setting.addresses ≡ links.now) }
        ensures kept { IfOk result (λ craft. craft.setting.kept ≡ reserved) }
        ensures first { IfOk result (λ craft. craft.setting.first ≡ first) }
        ensures empty { IfOk result (λ craft. craft.journal ≡ []) }
    {
        let table = Table::new(links.len() as u8, who.profile, reserved);
        let setup = Setup {
            who,
            addresses: copied(alloc, links)?,
            reserved,
            first,
        };
        Ok(Craft {
            setup,
            latest: first,
            table,
            journal: Vec::new(alloc),
            outboxes: empty_outboxes(alloc, links.len())?,
            logons: no_logons(alloc, links.len())?,
        })
    }

    /// Keeps room for one more entry: a place in the journal, and 600 bytes in each outbox.
    /// `NoMemory` comes for want of memory alone, and then no entry has come or gone.
    pub fn reserve(&mut self) -> Result<(), NoMemory>
        ensures room { OnOk result (0 < self.new.spare) }
        ensures setting { self.new.setting ≡ self.old.setting }
        ensures journal { self.new.journal ≡ self.old.journal }
        ensures kept { self.old.spare ≤ self.new.spare }
    {
        self.journal.reserve(1)?;
        reserve_each(self.outboxes.as_mut_slice())
    }

    /// Enters an entry at the end of the journal, and adds the downlinks that it makes due to the
    /// outboxes.
    ///
    /// Room is kept for it, its link is one of the aircraft's, its payload has 1 to 255 octets, and
    /// its moment is at most 999,999,999 s. It takes no memory and can't be refused, and it costs
    /// the same however long the journal is.
    #[inline(always)]
    pub fn apply(&mut self, entry: Entry)
        requires room { 0 < self.old.spare }
        requires taken { IsTakenBy self.old.setting entry }
        ensures journal { self.new.journal ≡ self.old.journal ++ entry ∷ [] }
        ensures setting { self.new.setting ≡ self.old.setting }
        ensures spare { self.old.spare ≤ self.new.spare + 1 }
    {
        take(
            &self.setup,
            &mut self.latest,
            &mut self.table,
            self.outboxes.as_mut_slice(),
            &entry,
        );
        note(self.logons.as_mut_slice(), &entry);
        enter(&mut self.journal, entry);
    }

    /// How many links the aircraft has.
    pub fn links(&self) -> usize
        ensures { result ≡ length self.now.setting.addresses }
    {
        self.setup.links()
    }

    /// The ground address of a link.
    pub fn address(&self, link: usize) -> Address
        requires { link < length self.now.setting.addresses }
        ensures { result ≡ address_of self.now.setting link }
    {
        self.setup.address(link)
    }

    /// The aircraft's registration (ARINC 622).
    pub fn registration(&self) -> Registration
        ensures { result ≡ self.now.setting.registration }
    {
        self.setup.registration()
    }

    /// The entries so far, in the order in which they came.
    pub fn journal(&self) -> &[Entry]
        ensures { result.now ≡ self.now.journal }
    {
        self.journal.as_slice()
    }

    /// The downlinks of a link, each ended by a newline, which stands in none of them.
    pub fn outbox(&self, link: usize) -> &[u8]
        requires { link < length self.now.setting.addresses }
        ensures texts { AreDownlinks self.now.setting self.now.journal link
            (script_lines result.now) }
        ensures ended { result.now ≡ ended_lines (script_lines result.now) }
    {
        self.outboxes[link].bytes()
    }

    /// How far the aircraft's logon on a link has come: the last logon or answer of the journal on
    /// the link decides, and an answer before any logon changes nothing.
    pub fn logon(&self, link: usize) -> Logon
        requires { link < length self.now.setting.addresses }
        ensures { result ≡ logon_state link self.now.journal }
    {
        self.logons[link]
    }

    /// The table of the aircraft's contracts: it is one of the aircraft's own configuration and
    /// links, and stands for all acts of the journal.
    pub fn table(&self) -> &Table
        ensures configured { result.now.configuration ≡ configuration_of self.now.setting }
        ensures linked { result.now.links ≡ length self.now.setting.addresses }
        ensures stands { (acts : List (List Act))
            → JournalActs self.now.setting.first self.now.journal acts
            → StandsFor result.now (newest_first acts) }
    {
        &self.table
    }
}

/// Keeps room for the bytes of one entry in each outbox. Where memory runs out, some have more
/// room, and nothing else changed.
fn reserve_each(outboxes: &mut [Outbox]) -> Result<(), NoMemory>
    ensures room { OnOk result (All (λ outbox. entry_bytes ≤ outbox.room) outboxes.new) }
    ensures each_link { length outboxes.new ≡ length outboxes.old }
    ensures sent { (link : ℕ) → (outbox_of outboxes.new link).sent
        ≡ (outbox_of outboxes.old link).sent }
    ensures kept { (link : ℕ) → (outbox_of outboxes.old link).room
        ≤ (outbox_of outboxes.new link).room }
{
    for outbox in outboxes {
        outbox.reserve(ENTRY_BYTES)?;
    }
    Ok(())
}
