//! What a text from the ground says.

use acars_envelope::{Address, EnvelopeRefusal, Registration};
use adsc_requests::{Refusal, Uplink};
use afn_logon::{AfnRefusal, Answer};
use arrayvec::ArrayVec;

/// What a text from the ground says (ARINC 622).
#[derive(Debug, Drop, PartialEq, Eq)]
pub enum GroundText {
    /// It is no envelope's text: its first bad place.
    Refused(EnvelopeRefusal),
    /// An uplink of the application ADS.
    Ads(AdsUplink),
    /// A text of the application AFN.
    Afn(AfnUplink),
}

/// An uplink of the application ADS (RTCA DO-258A / EUROCAE ED-100A, ARINC 622).
#[derive(Debug, Drop, PartialEq, Eq)]
pub struct AdsUplink {
    /// The ground address that it comes from.
    pub address: Address,
    /// The aircraft that it is for.
    pub registration: Registration,
    /// Its payload, 1 to 255 octets.
    pub octets: ArrayVec<u8, 255>,
    /// What the payload asks, or its first fault.
    pub asked: Result<Uplink, Refusal>,
}

/// A text of the application AFN: the facilities notification (RTCA DO-258A / EUROCAE ED-100A).
#[derive(Debug, Drop, PartialEq, Eq)]
pub struct AfnUplink {
    /// The ground address that it comes from.
    pub address: Address,
    /// The answer that its characters are, or the first place, counted from 0 at the first of them, with which no answer goes on.
    pub answer: Result<Answer, AfnRefusal>,
}
