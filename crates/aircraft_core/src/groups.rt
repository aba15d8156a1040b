//! The groups of a report, from a sample and from who the aircraft is.
ghost use Rattle.std.specs.Prelude.{◌≡◌, ◌^◌, ◌<◌, ◌≤◌, [], ◌∷◌, map, pos};
ghost use Rattle.acars_envelope.specs.Names.{IsFlight};
ghost use Rattle.adsc_groups.specs.GroupView.{airframe_values, flight_id_values, group_data, motion_values, route_values, weather_values};
ghost use Rattle.aircraft_core.specs.Reports.{flight_code as code_of, flight_codes as codes_of, group_on};

use crate::setup::Setup;
use adsc_groups::{Airframe, FlightId, Group, Motion, Route, Weather};
use flight_samples::Sample;

/// The code of a space (RTCA DO-258A / EUROCAE ED-100A).
const SPACE: u8 = 32;

/// The group of a tag from 12 to 17 (RTCA DO-258A / EUROCAE ED-100A).
pub(crate) fn group(setup: &Setup, sample: &Sample, tag: u8) -> Group
    requires low { 12 ≤ tag }
    requires high { tag ≤ 17 }
    ensures { group_data result ≡ group_on setup.now sample.now tag }
{
    match tag {
        12 => Group::FlightId(flight_identification(setup.flight())),
        13 => Group::Route(predicted_route(sample)),
        14 => Group::Earth(earth_reference(sample)),
        15 => Group::Air(air_reference(sample)),
        16 => Group::Weather(meteorological(sample)),
        _ => Group::Airframe(airframe_identification(setup.airframe())),
    }
}

/// Flight identification, tag 12: eight characters, the flight's own and then spaces.
fn flight_identification(flight: &[u8]) -> FlightId
    requires { IsFlight flight.now }
    ensures { flight_id_values result ≡ map pos (codes_of flight.now) }
{
    FlightId {
        codes: flight_codes(flight),
    }
}

/// The codes of a flight's eight characters.
fn flight_codes(flight: &[u8]) -> [u8; 8]
    requires { IsFlight flight.now }
    ensures { result ≡ codes_of flight.now }
{
    let mut codes = [SPACE; 8];
    for (place, character) in flight.iter().enumerate() {
        codes[place] = flight_code(*character);
    }
    codes
}

/// The code of six bits of a character: `A` to `Z` are 1 to 26, and `0` to `9` are 48 to 57.
fn flight_code(character: u8) -> u8
    ensures { result ≡ code_of character }
{
    if character >= b'A' {
        character - 64
    } else {
        character
    }
}

/// Predicted route, tag 13: the active waypoint and the one after it.
fn predicted_route(sample: &Sample) -> Route
    ensures { route_values result
        ≡ sample.now.wlat ∷ sample.now.wlon ∷ sample.now.walt ∷ sample.now.eta
        ∷ sample.now.nlat ∷ sample.now.nlon ∷ sample.now.nalt ∷ [] }
{
    Route {
        lat: sample.wlat,
        lon: sample.wlon,
        alt: sample.walt,
        eta: sample.eta as u32,
        next_lat: sample.nlat,
        next_lon: sample.nlon,
        next_alt: sample.nalt,
    }
}

/// Earth reference, tag 14: the motion over the ground.
fn earth_reference(sample: &Sample) -> Motion
    ensures { motion_values result
        ≡ sample.now.tinv ∷ sample.now.track ∷ sample.now.gs ∷ sample.now.vr ∷ [] }
{
    Motion {
        invalid: sample.tinv as u8,
        angle: sample.track as u32,
        speed: sample.gs as u32,
        vrate: sample.vr,
    }
}

/// Air reference, tag 15: the motion through the air.
fn air_reference(sample: &Sample) -> Motion
    ensures { motion_values result
        ≡ sample.now.hinv ∷ sample.now.heading ∷ sample.now.mach ∷ sample.now.vr ∷ [] }
{
    Motion {
        invalid: sample.hinv as u8,
        angle: sample.heading as u32,
        speed: sample.mach as u32,
        vrate: sample.vr,
    }
}

/// Meteorological data, tag 16: wind and temperature.
fn meteorological(sample: &Sample) -> Weather
    ensures { weather_values result
        ≡ sample.now.wind ∷ sample.now.winv ∷ sample.now.wdir ∷ sample.now.temp ∷ [] }
{
    Weather {
        wind: sample.wind as u32,
        invalid: sample.winv as u8,
        from: sample.wdir as u32,
        temp: sample.temp,
    }
}

/// Airframe identification, tag 17: the aircraft's address of 24 bits.
fn airframe_identification(airframe: u32) -> Airframe
    requires { airframe < 2 ^ 24 }
    ensures { airframe_values result ≡ pos airframe ∷ [] }
{
    Airframe { address: airframe }
}
