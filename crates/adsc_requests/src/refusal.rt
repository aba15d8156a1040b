//! Why a payload is refused.

/// The first fault of a payload, judged from the left: what a negative acknowledgement tells the
/// ground. Which fault is the first, its reason and its place are this project's profile.
#[derive(Clone, Copy, Debug, PartialEq, Eq)]
pub struct Refusal {
    /// The first bit of the faulty octet or field, counted from 0 at the payload's first octet.
    pub bit: u32,
    /// The reason, one of [`reason`](crate::reason).
    pub reason: u8,
    /// The number of the message that was being read: 0 where it has none, or where its number was
    /// not read.
    pub number: u8,
    /// The octet of the bit, counted from 1.
    pub octet: u8,
}
