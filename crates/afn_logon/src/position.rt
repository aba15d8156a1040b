//! A position in a contact text.
ghost use Rattle.std.specs.Prelude.{◌≤◌};

/// Where an aircraft is, in tenths of a minute of arc. Both angles count from 0: `south` and `west`
/// say to which side.
#[derive(Clone, Copy, Debug, PartialEq, Eq)]
pub struct Position {
    /// Whether the latitude counts to the south.
    pub south: bool,
    /// The latitude, at most 54,000: 90 degrees.
    pub lat: u32,
    /// Whether the longitude counts to the west.
    pub west: bool,
    /// The longitude, at most 108,000: 180 degrees.
    pub lon: u32,
    ghost lat_in_range: { lat ≤ 54000 },
    ghost lon_in_range: { lon ≤ 108000 },
}
