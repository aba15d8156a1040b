//! The tags of reports (RTCA DO-258A / EUROCAE ED-100A).

/// A basic report.
pub(crate) const BASIC_REPORT: u8 = 7;
/// An emergency report.
pub(crate) const EMERGENCY_REPORT: u8 = 9;
/// A lateral deviation event.
pub(crate) const LATERAL_EVENT: u8 = 10;
/// A vertical rate event.
pub(crate) const VERTICAL_RATE_EVENT: u8 = 18;
/// An altitude range event.
pub(crate) const RANGE_EVENT: u8 = 19;
/// A waypoint event.
pub(crate) const WAYPOINT_EVENT: u8 = 20;
