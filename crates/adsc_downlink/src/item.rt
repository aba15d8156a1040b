//! A downlink item of any kind.

ghost use Rattle.std.specs.Prelude.{IsTrue};
ghost use Rattle.adsc_downlink.specs.Codes.{is_reason, is_place_of};

use crate::report::Report;

/// A negative acknowledgement: a message that the aircraft refuses, and why.
///
/// Source: RTCA DO-258A / EUROCAE ED-100A for what is sent and its tag; the layout is this project's
/// profile.
#[derive(Clone, Copy, Debug, PartialEq, Eq)]
pub struct Nack {
    /// The number of the contract that was asked for.
    pub n: u8,
    /// Why it is refused, 1 to 13.
    pub reason: u8,
    /// The place of the faulty octet, counted from 1, for reasons 1, 2 and 7; 0 for the other
    /// reasons.
    pub octet: u8,
    ghost reason_known: { IsTrue (is_reason reason) },
    ghost octet_due: { IsTrue (is_place_of reason octet) },
}

/// A downlink item.
///
/// Source: RTCA DO-258A / EUROCAE ED-100A for what is sent and its tag; the layout is this project's
/// profile.
#[derive(Debug, PartialEq, Eq, Drop)]
pub enum Item {
    /// Acknowledgement of a contract, tag 3.
    Ack {
        /// The contract's number.
        n: u8,
    },
    /// Negative acknowledgement, tag 4.
    Nack(Nack),
    /// Noncompliance, tag 5: what was asked for is granted only in part.
    Noncompliance {
        /// The contract's number.
        n: u8,
    },
    /// The end of emergency mode, tag 6.
    EmergencyOff {
        /// The number of the emergency contract, or 0.
        n: u8,
    },
    /// A report, tag 7, 9, 10, 18, 19 or 20.
    Report(Report),
}
