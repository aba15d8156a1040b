//! The entries of a journal.

use arrayvec::ArrayVec;

/// One entry of the aircraft's journal: what came to it, and the line of the script that brought
/// it.
///
/// The journal and its entries are this project's profile. Lines are counted from 1.
#[derive(Debug, Drop)]
pub enum Entry {
    /// An uplink that the aircraft took on one of its links.
    Uplink {
        /// The number of the script's line.
        line: u32,
        /// The place of the link among the aircraft's links, counted from 0.
        link: u8,
        /// The payload: 1 to 255 octets.
        bytes: ArrayVec<u8, 255>,
    },
    /// An answer to a logon (AFN) that the aircraft took on one of its links.
    Answer {
        /// The number of the script's line.
        line: u32,
        /// The place of the link among the aircraft's links, counted from 0.
        link: u8,
        /// The answer's code: 0 accepts the contact, and any other rejects it.
        code: u8,
    },
    /// A flight sample that the avionics gave.
    Sample {
        /// The number of the script's line.
        line: u32,
        /// What the avionics know from then on.
        sample: flight_samples::Sample,
    },
    /// A tick of the clock. Time is the greatest tick so far, so one that goes back moves nothing.
    Tick {
        /// The number of the script's line.
        line: u32,
        /// The moment in seconds, at most 999,999,999.
        t: u32,
    },
    /// The crew switched emergency on or off.
    Crew {
        /// The number of the script's line.
        line: u32,
        /// Whether emergency is on from then on.
        on: bool,
    },
    /// The crew logged on to the ground address of a link (AFN).
    Logon {
        /// The number of the script's line.
        line: u32,
        /// The place of the link among the aircraft's links, counted from 0.
        link: u8,
    },
}
