//! The ground's side of a contract under ADS-C: a centre that asks one aircraft for contracts,
//! cancels them, hears what the aircraft sends, and shows for each kind of contract where its last
//! request stands (RTCA DO-258A / EUROCAE ED-100A, ARINC 622; numbers and rows are this project's
//! profile).
//!
//! A [`Centre`] gives the texts to send and takes the texts that come. It keeps the number of its
//! last request and four rows, takes no memory and starts no thread. What a row means is said by
//! looking back over the events at the centre, whatever was lost, repeated or brought late on the
//! way.
//!
//! It is for whoever writes a ground system; above stand the definitions of a run (`run_rules`)
//! and the run itself (`adsc_run`). Begin with `specs/Events.antt` and `specs/Rows.antt`, which
//! define the row of a kind, and `specs/Histories.antt`, which says when a centre stands for a
//! history; then read [`Centre`]. `specs/Hearing.antt` says what a text says to a centre, and
//! `src/laws.rt` has the laws of the definitions.
#![tactic(auto)]

mod answer;
mod centre;
mod greeting;
mod heard;
mod laws;
mod number;
mod reading;
mod refusal;
mod sending;
mod sent;
mod shown;
mod table;
#[cfg(test)]
mod tests;

pub use centre::Centre;
pub use heard::{Heard, Ignored};
pub use laws::{
    a_text_says_one_thing, own_contact_is_heard, own_downlink_is_heard, rows_go_on,
    worked_histories,
};
pub use number::with_number;
pub use refusal::{AskRefused, NothingShown};
pub use sent::Sent;
pub use shown::Shown;
