//! A text that a centre sends.

use acars_envelope::Text;

/// A text that a centre sends to its aircraft.
#[derive(Debug, Drop, PartialEq, Eq)]
pub struct Sent {
    /// The number of the message that it carries; 0 for a cancel of all, and for an answer to a
    /// contact, which have none.
    pub n: u8,
    /// The text (ARINC 622).
    pub text: Text,
}
