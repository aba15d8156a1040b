//! What a centre answers to a text.

use crate::sent::Sent;
use acars_envelope::EnvelopeRefusal;
use adsc_downlink::{DownRefusal, Items};
use afn_logon::AfnRefusal;

/// Why a text is ignored.
#[derive(Clone, Copy, Debug, PartialEq, Eq)]
pub enum Ignored {
    /// It is no envelope's text: its first bad place (ARINC 622, this project's profile).
    Envelope(EnvelopeRefusal),
    /// It bears the address of another ground facility.
    OtherAddress,
    /// Its characters are no contact: the first place, counted from 0 at the first of them, with
    /// which no contact goes on.
    Afn(AfnRefusal),
    /// It is of another aircraft.
    OtherRegistration {
        /// The place in the text where the registration begins, counted from 0.
        place: u32,
    },
    /// The payload of an ADS text is no downlink: its first fault (RTCA DO-258A / EUROCAE ED-100A,
    /// this project's profile).
    Bits(DownRefusal),
}

/// What a centre answers to a text that it hears.
#[derive(Debug, Drop, PartialEq, Eq)]
pub enum Heard {
    /// A contact: the aircraft is logged on, and this text answers it.
    Contact(Sent),
    /// A downlink.
    Downlink {
        /// The items, in the order in which they were sent.
        items: Items,
        /// How many of the items changed a row.
        matched: u8,
    },
    /// The text says nothing to this centre, and nothing changed.
    Ignored(Ignored),
}
