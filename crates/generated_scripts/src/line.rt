//! A line that is made.

/// A line that is made, behind the three lines of the head.
#[derive(Clone, Copy, Debug, PartialEq, Eq)]
pub enum MadeLine {
    /// A flight sample.
    Sample(MadeSample),
    /// The time.
    Time(u32),
    /// The crew's emergency act: on or off.
    Crew(bool),
    /// A text of the application ADS from the ground.
    Uplink {
        /// The place of its address among the five, counted from 0.
        place: u8,
        /// Its payload.
        payload: MadePayload,
    },
}

/// The columns of a sample that are drawn; the others are 0. Units are those of a sample line.
#[derive(Clone, Copy, Debug, PartialEq, Eq)]
pub struct MadeSample {
    /// Latitude of the present position.
    pub lat: i32,
    /// Longitude of the present position.
    pub lon: i32,
    /// Altitude of the present position.
    pub alt: i32,
    /// Distance from the planned track.
    pub xtk: i32,
    /// Latitude of the active waypoint.
    pub wlat: i32,
    /// Vertical rate.
    pub vr: i32,
}

/// A payload that is made, with the number of its message (RTCA DO-258A / EUROCAE ED-100A).
#[derive(Clone, Copy, Debug, PartialEq, Eq)]
pub enum MadePayload {
    /// A demand.
    Demand(u8),
    /// A periodic request with this octet of the reporting interval, and the predicted route in each second report.
    Periodic(u8, u8),
    /// An event request with this octet of the lateral limit, and the change of waypoint.
    Event(u8, u8),
    /// An emergency request with this octet of the reporting interval.
    Emergency(u8, u8),
    /// A cancel of the contract with the number.
    Cancel(u8),
    /// A cancel of all contracts.
    CancelAll,
    /// A periodic request that ends behind the tag of a reporting interval, which is malformed.
    Malformed(u8),
}
