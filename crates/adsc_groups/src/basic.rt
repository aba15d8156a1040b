//! The basic data of a report.

ghost use Rattle.std.specs.Prelude.{◌^◌, ◌<◌};
ghost use Rattle.bit_terms.specs.Signed.{FitsSigned};

mod coding;

pub use coding::{decode_basic, encode_basic};

/// Where the aircraft is, when, and how well it knows it. The data with which each report begins.
///
/// Source: RTCA DO-258A / EUROCAE ED-100A, ARINC 745 for its 80 bits and their order; the units are
/// this project's profile.
#[derive(Clone, Copy, Debug, PartialEq, Eq)]
pub struct Basic {
    /// Latitude in 180/2^20 degree, north positive, a signed number of 21 bits.
    pub lat: i32,
    /// Longitude in 180/2^20 degree, east positive, a signed number of 21 bits.
    pub lon: i32,
    /// Altitude in 4 ft, a signed number of 16 bits.
    pub alt: i32,
    /// Time past the hour in 1/8 s, a number of 15 bits.
    pub sec: u32,
    /// 1 where TCAS works, else 0.
    pub tcas: u8,
    /// The figure of the position's accuracy, 0 to 7.
    pub accuracy: u8,
    /// 1 where two navigation units work, else 0.
    pub redundancy: u8,
    ghost lat_fits: { FitsSigned 21 lat },
    ghost lon_fits: { FitsSigned 21 lon },
    ghost alt_fits: { FitsSigned 16 alt },
    ghost sec_fits: { sec < 2 ^ 15 },
    ghost tcas_fits: { tcas < 2 },
    ghost accuracy_fits: { accuracy < 8 },
    ghost redundancy_fits: { redundancy < 2 },
}
