//! Where the reading of a payload stops.

/// The first fault as the reader meets it: what is left of the payload there, the faulty octet or
/// field included, with the reason and the number that a refusal has.
#[derive(Clone, Copy, Debug)]
pub struct Stop {
    pub left: usize,
    pub reason: u8,
    pub number: u8,
}
