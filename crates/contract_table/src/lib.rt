//! The ADS-C contracts of an aircraft's links: a table of fixed size that takes acts one by one and answers what is due.
//!
//! An aircraft hears messages, and payloads that it can't read, from up to 64 ground systems; its flight gives samples, ticks of
//! the clock, and the crew's switch of emergency mode. Each of these is an [`Act`]. A [`Table`] holds what has to be kept of all
//! acts so far: at most five live links, each with its contracts in force, the grid and the number of its periodic reports, the
//! events that are still to come, and its emergency mode with the anchor of its reports. [`Table::step`] takes one more act and
//! answers the [`Dues`]: which answers and reports are due on each link, by rising link, a report by its tag and its groups. The
//! data of reports come from the flight sample and stand nowhere here.
//!
//! Link 0 asks at 0 s for a report every 304 s: an acknowledgement and a basic report are due at once. Nothing is due at 303 s, a
//! report at 304 s, one at 912 s, and none at a tick of 911 s that comes after, since time never goes back. The same request once
//! more is acknowledged and changes nothing, and another one with its number is refused for reason 6.
//!
//! No act is refused, no call takes memory, and a step costs by the live links. What the contracts promise, they promise over
//! every list of acts: a table stands for the acts that it took, and answers what the contract rules (`contract_rules`) make due
//! after them, through replacements, cancels, new sessions and emergencies.
//!
//! This crate stands on the requests, the flight samples and the three crates of due rules. Above it stands the aircraft, whose
//! journal gives the acts and which writes downlinks of what is due. Begin with `src/table.rt`, then `specs/Tables.antt` (what a
//! table stands for) and `specs/Dues.antt` (what is due); `connections` has the messages, `flight` the flight's acts, `connection`
//! one live link. `proofs/TableSteps.antt` and `proofs/TableDues.antt` prove that one act more is what the rules say, by lemmas on
//! one link for each kind of act. `laws` has what the definitions say to a reader.
#![tactic(auto)]

mod accepting;
mod act;
mod answer;
mod configuration;
mod connection;
mod connections;
mod due;
mod event;
mod flight;
mod laws;
mod reporting;
mod table;
mod tags;
mod verdict;

pub use act::Act;
pub use due::{Due, DueItem, Dues};
pub use laws::{due_items_can_be_sent, each_link_has_its_items, messages_are_seen_whole};
pub use table::Table;

#[cfg(test)]
mod tests;
