//! An answer: what a centre tells an aircraft that sent it a contact.
ghost use Rattle.std.specs.Prelude.{◌≤◌, IsTrue, length};
ghost use Rattle.afn_logon.specs.Applications.{are_up_to};

use crate::application::Application;
use acars_envelope::{Flight, Registration};
use arrayvec::ArrayVec;

/// An answer, FN_AK of the facilities notification (RTCA DO-258A / EUROCAE ED-100A; its fields are
/// this project's profile).
#[derive(Debug, Drop, PartialEq, Eq)]
pub struct Answer {
    /// The flight identifier of the contact.
    pub flight: Flight,
    /// The registration of the contact's aircraft.
    pub registration: Registration,
    /// The code, at most 9: 0 accepts the contact.
    pub code: u8,
    /// The applications that the centre speaks of, 1 to 4, with numbers of at most 9.
    pub applications: ArrayVec<Application, 4>,
    ghost one_digit: { code ≤ 9 },
    ghost some: { 1 ≤ length applications.items },
    ghost few: { length applications.items ≤ 4 },
    ghost numbers: { IsTrue (are_up_to 9 applications.items) },
}
