//! Who an aircraft is.
ghost use Rattle.std.specs.Prelude.{◌<◌, ◌^◌};

use acars_envelope::{Flight, Registration};
use due_event::Profile;

/// Who an aircraft is on its data link.
///
/// The three names are those of RTCA DO-258A / EUROCAE ED-100A; the profile is this project's own.
#[derive(Debug, Drop, PartialEq, Eq)]
pub struct Who {
    /// The aircraft's registration, seven characters.
    pub registration: Registration,
    /// The flight's identification, one to eight characters.
    pub flight: Flight,
    /// The aircraft's address of 24 bits (ICAO).
    pub airframe: u32,
    /// How often the aircraft reports the events of an event contract.
    pub profile: Profile,
    ghost address_size: { airframe < 2 ^ 24 },
}
