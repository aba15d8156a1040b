//! The aircraft's side of its links, without a journal.
ghost use Rattle.std.specs.Prelude.{◌≡◌, ◌<◌, ◌≤◌, [], ◌∷◌, ◌++◌, ℕ, List, All, length, IfOk};
ghost use Rattle.std.specs.Option.{ForSome};
ghost use Rattle.due_event.specs.RuleTerms.{rules_profile};
ghost use Rattle.aircraft_core.specs.declared.entry.Entry.{Entry as JournalEntry};
ghost use Rattle.aircraft_core.specs.AddedTexts.{AreAdded, listed};
ghost use Rattle.aircraft_core.specs.Entries.{IsTakenBy};
ghost use Rattle.aircraft_core.specs.LiveAircraft.{StandsAfter};
ghost use Rattle.aircraft_core.specs.LogonStates.{logon_state};
ghost use Rattle.aircraft_core.specs.Outboxes.{HasRoom};
ghost use Rattle.aircraft_core.specs.Setting.{address_of};

use crate::entry::Entry;
use crate::logons::note;
use crate::making::{copied, empty_outboxes, no_logons};
use crate::outbox::Outbox;
use crate::setup::Setup;
use crate::taking::take;
use crate::who::Who;
use acars_envelope::{Address, Registration};
use adsc_io::NoMemory;
use afn_logon::Logon;
use contract_table::Table;
use flight_samples::Sample;
use std::alloc::Global;
use std::marker::Model;

/// An aircraft that keeps no journal: the table of its contracts, its latest sample, and for each
/// of its links how far its logon has come and what the last entry made due.
///
/// It takes entries as a `Craft` does, and of what is due it keeps the texts of the last entry
/// alone, so its memory doesn't grow. Contracts see its fields as values, and say of a journal that
/// the aircraft stands after it (`StandsAfter`).
#[derive(Drop)]
pub struct LiveCraft {
    setup: Setup,
    latest: Sample,
    table: Table,
    logons: Vec<Logon>,
    outboxes: Vec<Outbox>,
}

impl Model for LiveCraft {
    ghost use Rattle.aircraft_core.specs.LiveAircraft.{LiveAircraft};

    ghost Value = { LiveAircraft };

    ghost use Rattle.aircraft_core.specs.LiveFields.{live_of, FitsSetting};

    ghost view = { live_of };

    ghost invariant = { FitsSetting };
}

impl LiveCraft {
    /// An aircraft to which nothing came, with a link to each of these 1 to 64 ground addresses,
    /// which all differ.
    ///
    /// One of the five connections is kept for the link of number `reserved`, if there is one. It
    /// takes all the memory that the aircraft will ever have; `NoMemory` comes for want of memory
    /// alone.
    pub fn new(
        alloc: Global,
        who: Who,
        links: &[Address],
        reserved: Option<u8>,
        first: Sample,
    ) -> Result<LiveCraft, NoMemory>
        requires links { (1 ≤ length links.now) × (length links.now ≤ 64) }
        requires reserved { ForSome reserved (λ kept. kept < length links.now) }
        ensures registration { IfOk result (λ craft. craft.setting.registration
            ≡ who.registration) }
        ensures flight { IfOk result (λ craft. craft.setting.flight ≡ who.flight) }
        ensures airframe { IfOk result (λ craft. craft.setting.airframe ≡ who.airframe) }
        ensures profile { IfOk result (λ craft. craft.setting.profile ≡ rules_profile who.profile) }
        ensures addresses { IfOk result (λ craft. craft.setting.addresses ≡ links.now) }
        ensures kept { IfOk result (λ craft. craft.setting.kept ≡ reserved) }
        ensures first { IfOk result (λ craft. craft.setting.first ≡ first) }
        ensures stands { IfOk result (λ craft. StandsAfter craft []) }
    {
        let table = Table::new(links.len() as u8, who.profile, reserved);
        let setup = Setup {
            who,
            addresses: copied(alloc, links)?,
            reserved,
            first,
        };
        Ok(LiveCraft {
            setup,
            latest: first,
            table,
            logons: no_logons(alloc, links.len())?,
            outboxes: empty_outboxes(alloc, links.len())?,
        })
    }

    /// Takes an entry: the aircraft stands after one entry more, and what the entry made due is
    /// told by `due`, until the next entry.
    ///
    /// The entry's link is one of the aircraft's, its payload has 1 to 255 octets, and its moment
    /// is at most 999,999,999 s. It takes no memory and can't be refused.
    pub fn apply(&mut self, entry: &Entry)
        requires taken { IsTakenBy self.old.setting entry.now }
        ensures setting { self.new.setting ≡ self.old.setting }
        ensures stands { (journal : List JournalEntry) → StandsAfter self.old journal
            → StandsAfter self.new (journal ++ entry.now ∷ []) }
    {
        let outboxes = self.outboxes.as_mut_slice();
        clear_each(outboxes);
        take(
            &self.setup,
            &mut self.latest,
            &mut self.table,
            outboxes,
            entry,
        );
        note(self.logons.as_mut_slice(), entry);
    }

    /// The text that the last entry made due on a link, without its newline, and nothing where it
    /// made none due there.
    pub fn due(&self, link: usize) -> Option<&[u8]>
        requires { link < length self.now.setting.addresses }
        ensures { (journal : List JournalEntry) (entry : JournalEntry)
            → StandsAfter self.now (journal ++ entry ∷ [])
            → AreAdded self.now.setting journal entry link (listed result) }
    {
        self.outboxes[link].text()
    }

    /// How many links the aircraft has.
    pub fn links(&self) -> usize
        ensures { result ≡ length self.now.setting.addresses }
    {
        self.setup.links()
    }

    /// The ground address of a link.
    pub fn address(&self, link: usize) -> Address
        requires { link < length self.now.setting.addresses }
        ensures { result ≡ address_of self.now.setting link }
    {
        self.setup.address(link)
    }

    /// The aircraft's registration (ARINC 622).
    pub fn registration(&self) -> Registration
        ensures { result ≡ self.now.setting.registration }
    {
        self.setup.registration()
    }

    /// How far the aircraft's logon on a link has come: the last logon or answer on the link
    /// decides, and an answer before any logon changes nothing.
    pub fn logon(&self, link: usize) -> Logon
        requires { link < length self.now.setting.addresses }
        ensures { (journal : List JournalEntry) → StandsAfter self.now journal
            → result ≡ logon_state link journal }
    {
        self.logons[link]
    }
}

/// Forgets what was sent on each link.
fn clear_each(outboxes: &mut [Outbox])
    ensures each_link { length outboxes.new ≡ length outboxes.old }
    ensures sent { All (λ outbox. outbox.sent ≡ []) outboxes.new }
    ensures room { All HasRoom outboxes.new }
{
    for outbox in outboxes {
        outbox.clear();
    }
}
