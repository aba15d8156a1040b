//! The aircraft's side of ADS-C: the journal of what came to it, and the downlinks that the journal
//! makes due on its links.
//!
//! A `Craft` is made for one aircraft (`Who`) with the ground addresses of its links. Each `Entry`
//! that is applied to it, an uplink, a flight sample, a tick of the clock, an act of the crew, a
//! logon or an answer to one, stands in its journal for good. The outbox of each link is, at every
//! moment, the downlinks of that journal, the logon of each link is the state that the journal
//! makes of it, and the table of contracts stands for all acts of the journal: the type keeps all
//! three, so nobody above has to believe a run of calls. What is due is said by the rules of
//! `contract_rules`, at the acts that the entries are; the items that are due on a link at one
//! entry make one downlink, and a logon makes one, its contact.
//!
//! A `LiveCraft` takes entries by the same rules and keeps no journal: of what is due it keeps the
//! texts of the last entry alone.
//!
//! Above stand the aircraft shared by threads (`link_threads`) and the run of a script
//! (`run_rules`, `adsc_run`). Begin with `specs/Downlinks.antt`, which says what is due,
//! `specs/JournalActs.antt`, which says what the acts of a journal are, and
//! `specs/LogonStates.antt`; then read `craft`, and for the aircraft without a journal
//! `specs/AddedTexts.antt`, `specs/LiveAircraft.antt` and `live`. `taking` has what an entry does, `links` how
//! what is due is sent link by link, `items`, `reports` and `groups` have the items, `downlink`
//! and `outbox` their text, `logons` the contacts and the logons. `laws` has the laws of the
//! definitions.
#![tactic(auto)]

mod craft;
mod downlink;
mod entry;
mod groups;
mod items;
mod laws;
mod links;
mod live;
mod logons;
mod making;
mod outbox;
mod reports;
mod room;
mod setup;
mod taking;
#[cfg(test)]
mod tests;
mod who;

pub use craft::Craft;
pub use entry::Entry;
pub use laws::{
    a_journal_has_acts, a_journal_has_one_list_of_downlinks, an_entry_adds_one_list_of_texts,
    an_entry_adds_one_text_at_most, links_are_independent, logons_are_independent,
    the_last_word_decides_a_logon, what_is_added_stands_behind,
};
pub use live::LiveCraft;
pub use who::Who;
