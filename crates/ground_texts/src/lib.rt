//! What a text from the ground says to an aircraft: the first bad place of its envelope (ARINC 622), an uplink of the application
//! ADS with what its payload asks or its first fault (RTCA DO-258A / EUROCAE ED-100A), or a text of the application AFN with the
//! answer to a logon that it is or its first mismatch.
//!
//! [`read_ground_text`] says it, for whoever takes such texts or shows them: the run of a script and the command that shows texts stand
//! above. It takes no memory. Below stand the crates of envelopes, requests and logon texts.
//!
//! Begin with `specs/Readings.antt`, then read [`read_ground_text`]; `laws` says that each text says something, and one thing.
#![tactic(auto)]

mod ground_text;
mod laws;
mod reading;
#[cfg(test)]
mod tests;

pub use ground_text::{AdsUplink, AfnUplink, GroundText};
pub use laws::{a_text_says_one_thing, each_text_says_something};
pub use reading::read_ground_text;
