//! A report group of any kind.

mod coding;

use crate::kinds::{Airframe, Fixed, FlightId, Intermediate, Motion, Route, Weather};
pub use coding::{decode_group, encode_group, group_octets, group_tag};

/// A report group.
///
/// Source: RTCA DO-258A / EUROCAE ED-100A, ARINC 745 for the names and tags; fields and units are
/// this project's profile.
#[derive(Clone, Copy, Debug, PartialEq, Eq)]
pub enum Group {
    /// Flight identification, tag 12.
    FlightId(FlightId),
    /// Predicted route, tag 13.
    Route(Route),
    /// Earth reference, tag 14.
    Earth(Motion),
    /// Air reference, tag 15.
    Air(Motion),
    /// Meteorological data, tag 16.
    Weather(Weather),
    /// Airframe identification, tag 17.
    Airframe(Airframe),
    /// Intermediate projected intent, tag 22.
    Intermediate(Intermediate),
    /// Fixed projected intent, tag 23.
    Fixed(Fixed),
}
