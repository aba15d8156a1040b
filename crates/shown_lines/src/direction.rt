//! Which way a text goes.

/// Which way a text goes (ARINC 622). The letter at the beginning of a line says it.
#[derive(Clone, Copy, Debug, PartialEq, Eq)]
pub(crate) enum Direction {
    /// From the ground to the aircraft, an uplink: the letter `U`.
    Up,
    /// From the aircraft to the ground, a downlink: the letter `D`.
    Down,
}
