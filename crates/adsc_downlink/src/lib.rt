//! The downlink items of ADS-C: what an aircraft sends to a centre, acknowledgements and reports,
//! and the octets in which it sends them. The items and their tags follow RTCA DO-258A / EUROCAE
//! ED-100A; the layout is this project's profile.
//!
//! A payload is one to eight items. This crate has a type for each of them, an encoder that writes
//! the one canonical encoding of items, and a decoder that reads every encoding, or says at which
//! bit a payload goes wrong first, and why. The crates of the aircraft and of the centre stand
//! above it. Begin with specs/Items.antt, where an item and its canonical encoding are defined;
//! then `item` and `items`.
#![tactic(auto)]

mod blanks;
mod decoding;
mod encoding;
mod item;
mod items;
mod laws;
mod refusal;
mod report;

pub use decoding::{decode_downlink, decode_items};
pub use encoding::{downlink_size, encode_downlink, encode_item};
pub use item::{Item, Nack};
pub use items::Items;
pub use laws::{one_reading, same_data_same_value};
pub use refusal::{DownRefusal, DownWhy};
pub use report::{Report, ReportGroup};

#[cfg(test)]
mod tests;
