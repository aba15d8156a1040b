//! Texts from the ground that are refused.

use acars_envelope::EnvelopeRefusal;
use adsc_requests::Refusal;

/// Why a text from the ground is refused, in the order in which a text is judged. This project's profile.
#[derive(Clone, Copy, Debug, PartialEq, Eq)]
pub enum RefusedWhy {
    /// It is no envelope's text: its first bad place (ARINC 622, with this project's check).
    Envelope(EnvelopeRefusal),
    /// Its ground address is none of the aircraft's links.
    UnknownAddress,
    /// It is of the application AFN and no answer to a logon: the place in the text, counted from 0, with which no answer goes on.
    Afn {
        /// The place.
        place: u32,
    },
    /// It is for an aircraft of another registration, which stands at this place of the text, counted from 0.
    OtherRegistration {
        /// The place.
        place: u32,
    },
    /// Its payload is malformed: its first fault (RTCA DO-258A / EUROCAE ED-100A). Such a text is taken all the same, so it
    /// stands in the journal.
    Bits(Refusal),
}

/// A refused text: the line of the script that brought it, and why it is refused.
#[derive(Clone, Copy, Debug, PartialEq, Eq)]
pub struct RefusedLine {
    /// The line's number, counted from 1.
    pub line: u32,
    /// Why its text is refused.
    pub why: RefusedWhy,
}
