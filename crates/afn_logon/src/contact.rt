//! A contact: what an aircraft tells a centre to log on.
ghost use Rattle.std.specs.Prelude.{◌^◌, ◌<◌, ◌≤◌, IsTrue, length};
ghost use Rattle.std.specs.Option.{ForSome};
ghost use Rattle.afn_logon.specs.Applications.{are_up_to};

use crate::application::Application;
use crate::position::Position;
use acars_envelope::{Flight, Registration};
use arrayvec::ArrayVec;

/// A contact, FN_CON of the facilities notification (RTCA DO-258A / EUROCAE ED-100A; its fields are
/// this project's profile).
#[derive(Debug, Drop, PartialEq, Eq)]
pub struct Contact {
    /// The flight identifier.
    pub flight: Flight,
    /// The aircraft's registration.
    pub registration: Registration,
    /// The airframe's address of 24 bits, where it is told.
    pub airframe: Option<u32>,
    /// The time of day in seconds, below 86,400.
    pub clock: u32,
    /// Where the aircraft is.
    pub position: Position,
    /// Whether the contracts of the link are active.
    pub active: bool,
    /// The applications that the aircraft offers, 1 to 4, with numbers of at most 99.
    pub applications: ArrayVec<Application, 4>,
    ghost airframe_fits: { ForSome airframe (λ address. address < 2 ^ 24) },
    ghost within_the_day: { clock < 86400 },
    ghost some: { 1 ≤ length applications.items },
    ghost few: { length applications.items ≤ 4 },
    ghost numbers: { IsTrue (are_up_to 99 applications.items) },
}
