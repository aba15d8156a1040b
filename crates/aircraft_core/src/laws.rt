//! Laws of the definitions.
ghost use Rattle.std.specs.Prelude.{◌≡◌, ℕ, ◌≤◌, Bool, List, [], ◌∷◌, ◌++◌, filter, length};
ghost use Rattle.aircraft_core.specs.AddedTexts.{AreAdded};
ghost use Rattle.aircraft_core.specs.Admissions.{AreAdmissions};
ghost use Rattle.aircraft_core.specs.Downlinks.{AreDownlinks};
ghost use Rattle.aircraft_core.specs.Entries.{is_heard_by};
ghost use Rattle.aircraft_core.specs.JournalActs.{EntryActs, JournalActs, UplinkActs};
ghost use Rattle.aircraft_core.specs.LogonStates.{logon_state, state_looking_back};
ghost use Rattle.aircraft_core.specs.Setting.{Setting};
ghost use Rattle.contract_rules.specs.Acts.{Act};
ghost use Rattle.flight_samples.specs.declared.sample.Sample.{Sample as FlightSample};
ghost use Rattle.aircraft_core.specs.declared.entry.Entry.{Entry as JournalEntry};

use crate::entry::Entry;
use adsc_requests::decode_uplink;
use flight_samples::Sample;

/// A journal makes one list of downlinks due on a link: each of its payloads is an encoding of one
/// uplink or has one first fault, so it has one list of acts, and the rules make due what they say.
pub fn a_journal_has_one_list_of_downlinks()
    ensures { (setting : Setting) (journal : List JournalEntry) (link : ℕ) (one other : List
        (List ℕ)) →
        AreDownlinks setting journal link one → AreDownlinks setting journal link other → one ≡ other }
{}

/// What a link gets depends on other links through admissions alone: where two journals have, for a
/// link, the same entries of its own and of the flight in the same order, and the same of its
/// requests admit it, they give it the same downlinks.
pub fn links_are_independent()
    ensures { (setting : Setting) (link : ℕ) (one other : List JournalEntry) (admissions : List
        (List Bool)) (texts others : List (List ℕ)) →
        filter (is_heard_by link) one ≡ filter (is_heard_by link) other →
        AreAdmissions setting one link admissions → AreAdmissions setting other link admissions →
        AreDownlinks setting one link texts → AreDownlinks setting other link others → texts ≡ others }
{}

/// A journal has acts: each of its payloads is an encoding of one uplink, or has a first fault.
pub fn a_journal_has_acts(first: &Sample, journal: &[Entry])
    ensures { (acts : List (List Act)) × JournalActs first.now journal.now acts }
{
    for entry in journal {
        an_entry_has_acts(entry);
    }
}

/// An entry has acts, whatever the sample before it.
fn an_entry_has_acts(entry: &Entry)
    ensures { (latest : FlightSample) → (acts : List Act) × EntryActs latest entry.now acts }
{
    match entry {
        Entry::Uplink { bytes, .. } => a_payload_has_acts(bytes.as_slice()),
        Entry::Sample { .. } => {}
        Entry::Tick { .. } => {}
        Entry::Crew { .. } => {}
        Entry::Answer { .. } => {}
        Entry::Logon { .. } => {}
    }
}

/// A payload has acts, on whatever link it comes.
fn a_payload_has_acts(payload: &[u8])
    requires { length payload.now ≤ 255 }
    ensures { (link : ℕ) → (acts : List Act) × UplinkActs link payload.now acts }
{
    match decode_uplink(payload) {
        Ok(_) => {}
        Err(_) => {}
    }
}

/// The logon state of a link depends on no other link: where two journals have, for a link, the same
/// entries of its own and of the flight in the same order, they make the same of its logon.
pub fn logons_are_independent()
    ensures { (link : ℕ) (one other : List JournalEntry) →
        filter (is_heard_by link) one ≡ filter (is_heard_by link) other →
        logon_state link one ≡ logon_state link other }
{}

/// The logon state of a link by looking back: where no logon of the link came it is nothing, and
/// else the last logon of the link or answer on it decides.
pub fn the_last_word_decides_a_logon()
    ensures { (link : ℕ) (journal : List JournalEntry) → logon_state link journal ≡ state_looking_back link journal }
{}

/// What an entry adds to the downlinks of a journal on a link is one list of texts.
pub fn an_entry_adds_one_list_of_texts()
    ensures { (setting : Setting) (journal : List JournalEntry) (entry : JournalEntry) (link : ℕ) (one other : List
        (List ℕ)) →
        AreAdded setting journal entry link one → AreAdded setting journal entry link other → one ≡ other }
{}

/// An entry adds one text to a link at most.
pub fn an_entry_adds_one_text_at_most()
    ensures { (setting : Setting) (journal : List JournalEntry) (entry : JournalEntry) (link : ℕ) (texts : List
        (List ℕ)) →
        AreAdded setting journal entry link texts → length texts ≤ 1 }
{}

/// What an entry adds stands behind the downlinks of the journal before it.
pub fn what_is_added_stands_behind()
    ensures { (setting : Setting) (journal : List JournalEntry) (entry : JournalEntry) (link : ℕ) (before texts : List
        (List ℕ)) →
        AreDownlinks setting journal link before → AreAdded setting journal entry link texts →
        AreDownlinks setting (journal ++ entry ∷ []) link (before ++ texts) }
{}
