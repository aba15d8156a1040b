//! The report groups of ADS-C: what a report says of the flight, and the bits in which it says it.
//!
//! The groups, their names and their tags follow RTCA DO-258A / EUROCAE ED-100A and ARINC 745. Of
//! the layout only that of the basic data is theirs: 80 bits, in the order latitude, longitude,
//! altitude, seconds past the hour, remaining bits. The orders, widths and padding of the fields of
//! groups, and all units, are this project's profile.
//!
//! A report begins with basic data, and groups follow it, each behind its tag. This crate has a
//! type for each of them, an encoder that writes its one canonical encoding, and a decoder that
//! reads every encoding, or says at which bit a field is cut short. The crate of downlink items
//! stands above it. Begin with specs/Fields.antt and the tables of fields; then `basic` and
//! `group`.
#![tactic(auto)]

mod basic;
mod group;
mod kinds;
mod laws;
mod refusal;

pub use basic::{Basic, decode_basic, encode_basic};
pub use group::{Group, decode_group, encode_group, group_octets, group_tag};
pub use kinds::{Airframe, Fixed, FlightId, Intermediate, Motion, Route, Weather};
pub use laws::same_data_same_value;
pub use refusal::{GroupRefusal, GroupWhy};

#[cfg(test)]
mod tests;
