//! The reasons of refusals, as a negative acknowledgement carries them. That an uplink is refused
//! with a reason follows RTCA DO-258A / EUROCAE ED-100A; the numbers of the reasons and what each
//! says are this project's profile.

/// Duplicate group tag.
pub const DUPLICATE_GROUP: u8 = 1;
/// Duplicate reporting interval tag.
pub const DUPLICATE_INTERVAL: u8 = 2;
/// Event contract request with no data.
pub const EMPTY_EVENT_REQUEST: u8 = 3;
/// Undefined contract request tag.
pub const UNDEFINED_TAG: u8 = 7;
/// Undefined error: a fifth message begins.
pub const UNDEFINED_ERROR: u8 = 8;
/// Not enough data in the request.
pub const NOT_ENOUGH_DATA: u8 = 9;
/// Altitude range low limit not below high limit.
pub const RANGE_NOT_ORDERED: u8 = 10;
/// Vertical rate threshold is 0.
pub const VERTICAL_RATE_0: u8 = 11;
/// Aircraft intent projection time is 0.
pub const PROJECTION_0: u8 = 12;
/// Lateral deviation threshold is 0.
pub const LATERAL_0: u8 = 13;
