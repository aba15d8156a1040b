//! The groups that a report can carry behind its basic data.
//!
//! The groups and their names follow RTCA DO-258A / EUROCAE ED-100A and ARINC 745; which fields a
//! group has, their widths and their units are this project's profile. A field holds each number of
//! its bits.

ghost use Rattle.std.specs.Prelude.{◌≡◌, ℕ, ◌^◌, ◌<◌, length, slice_index};
ghost use Rattle.bit_terms.specs.Signed.{FitsSigned};

mod coding;

pub(crate) use coding::{
    decode_airframe, decode_fixed, decode_flight_id, decode_intermediate, decode_motion,
    decode_route, decode_weather, encode_airframe, encode_fixed, encode_flight_id,
    encode_intermediate, encode_motion, encode_route, encode_weather,
};

/// Flight identification, group 12.
#[derive(Clone, Copy, Debug, PartialEq, Eq)]
pub struct FlightId {
    /// Eight characters as codes of six bits: `A` to `Z` are 1 to 26, space is 32, `0` to `9` are
    /// 48 to 57.
    pub codes: [u8; 8],
    ghost eight: { length codes ≡ 8 },
    ghost six_bits: { (i : ℕ) → slice_index codes i < 64 },
}

/// Predicted route, group 13: the next waypoint and the one after it.
#[derive(Clone, Copy, Debug, PartialEq, Eq)]
pub struct Route {
    /// Latitude of the next waypoint in 180/2^20 degree, a signed number of 21 bits.
    pub lat: i32,
    /// Its longitude in 180/2^20 degree, a signed number of 21 bits.
    pub lon: i32,
    /// Its altitude in 4 ft, a signed number of 16 bits.
    pub alt: i32,
    /// Time to go to it in seconds, a number of 14 bits.
    pub eta: u32,
    /// Latitude of the waypoint after it, as above.
    pub next_lat: i32,
    /// Longitude of the waypoint after it, as above.
    pub next_lon: i32,
    /// Altitude of the waypoint after it, as above.
    pub next_alt: i32,
    ghost lat_fits: { FitsSigned 21 lat },
    ghost lon_fits: { FitsSigned 21 lon },
    ghost alt_fits: { FitsSigned 16 alt },
    ghost eta_fits: { eta < 2 ^ 14 },
    ghost next_lat_fits: { FitsSigned 21 next_lat },
    ghost next_lon_fits: { FitsSigned 21 next_lon },
    ghost next_alt_fits: { FitsSigned 16 next_alt },
}

/// Motion over the earth, group 14, or through the air, group 15.
#[derive(Clone, Copy, Debug, PartialEq, Eq)]
pub struct Motion {
    /// 1 where the angle is invalid, else 0.
    pub invalid: u8,
    /// True track or true heading in 360/4096 degree, a number of 12 bits.
    pub angle: u32,
    /// Ground speed in 1/2 knot, or Mach number in 0.0005, a number of 13 bits.
    pub speed: u32,
    /// Vertical rate in 16 ft/min, climb positive, a signed number of 12 bits.
    pub vrate: i32,
    ghost invalid_fits: { invalid < 2 },
    ghost angle_fits: { angle < 2 ^ 12 },
    ghost speed_fits: { speed < 2 ^ 13 },
    ghost vrate_fits: { FitsSigned 12 vrate },
}

/// Meteorological data, group 16.
#[derive(Clone, Copy, Debug, PartialEq, Eq)]
pub struct Weather {
    /// Wind speed in 1/2 knot, a number of 9 bits.
    pub wind: u32,
    /// 1 where the wind's direction is invalid, else 0.
    pub invalid: u8,
    /// True direction from which the wind blows in 360/512 degree, a number of 9 bits.
    pub from: u32,
    /// Temperature in 0.25 degree Celsius, a signed number of 12 bits.
    pub temp: i32,
    ghost wind_fits: { wind < 2 ^ 9 },
    ghost invalid_fits: { invalid < 2 },
    ghost from_fits: { from < 2 ^ 9 },
    ghost temp_fits: { FitsSigned 12 temp },
}

/// Airframe identification, group 17.
#[derive(Clone, Copy, Debug, PartialEq, Eq)]
pub struct Airframe {
    /// The aircraft's address, a number of 24 bits.
    pub address: u32,
    ghost address_fits: { address < 2 ^ 24 },
}

/// Intermediate projected intent, group 22: the next change of track, speed or altitude.
#[derive(Clone, Copy, Debug, PartialEq, Eq)]
pub struct Intermediate {
    /// Distance in 0.125 NM, a number of 16 bits.
    pub distance: u32,
    /// 1 where the angle is invalid, else 0.
    pub invalid: u8,
    /// True track in 360/4096 degree, a number of 12 bits.
    pub angle: u32,
    /// Altitude in 4 ft, a signed number of 16 bits.
    pub alt: i32,
    /// Time to go in seconds, a number of 14 bits.
    pub eta: u32,
    ghost distance_fits: { distance < 2 ^ 16 },
    ghost invalid_fits: { invalid < 2 },
    ghost angle_fits: { angle < 2 ^ 12 },
    ghost alt_fits: { FitsSigned 16 alt },
    ghost eta_fits: { eta < 2 ^ 14 },
}

/// Fixed projected intent, group 23: where the aircraft will be after the time that was asked for.
#[derive(Clone, Copy, Debug, PartialEq, Eq)]
pub struct Fixed {
    /// Latitude in 180/2^20 degree, a signed number of 21 bits.
    pub lat: i32,
    /// Longitude in 180/2^20 degree, a signed number of 21 bits.
    pub lon: i32,
    /// Altitude in 4 ft, a signed number of 16 bits.
    pub alt: i32,
    /// Time to go in seconds, a number of 14 bits.
    pub eta: u32,
    ghost lat_fits: { FitsSigned 21 lat },
    ghost lon_fits: { FitsSigned 21 lon },
    ghost alt_fits: { FitsSigned 16 alt },
    ghost eta_fits: { eta < 2 ^ 14 },
}
