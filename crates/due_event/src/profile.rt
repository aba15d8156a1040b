//! Which profile of event contracts an aircraft flies by.

/// How often an aircraft reports the events of one event contract, this project's profile of RTCA DO-258A / EUROCAE ED-100A.
///
/// The waypoint event is the same in both: it is due at each change of the active waypoint.
#[derive(Clone, Copy, Debug, PartialEq, Eq)]
pub enum Profile {
    /// Profile 1: lateral deviation, vertical rate and altitude range are each reported once per contract, at the first
    /// sample after acceptance that exceeds the limit.
    One,
    /// Profile 2: lateral deviation and altitude range arm again as soon as a sample is back within the limit. The
    /// vertical rate is reported once per contract, as in profile 1.
    Two,
}
