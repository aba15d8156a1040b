//! The events of one sample.

/// Which of the four events of an event contract fall due at a sample (RTCA DO-258A / EUROCAE ED-100A).
#[derive(Clone, Copy, Debug, PartialEq, Eq)]
pub struct Fired {
    /// Lateral deviation (report tag 10).
    pub lateral: bool,
    /// Vertical rate (report tag 18).
    pub vrate: bool,
    /// Altitude range (report tag 19).
    pub range: bool,
    /// Change of the active waypoint (report tag 20).
    pub waypoint: bool,
}
