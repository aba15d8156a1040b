//! The messages of an uplink, as a ground system asks them.

ghost use Rattle.std.specs.Prelude.{◌≡◌, ◌<◌, ◌≤◌, ◌<ℤ◌, IsTrue, pos, length, FitsSigned};
ghost use Rattle.std.specs.Option.{ForSome};
ghost use Rattle.std.specs.Int.{w8, w16};
ghost use Rattle.adsc_requests.specs.Watching.{is_watching, is_not_zero};

use arrayvec::ArrayVec;

/// The aircraft intent that a periodic request asks for: group 21 of RTCA DO-258A / EUROCAE ED-100A,
/// its two octets in this project's profile.
#[derive(Clone, Copy, Debug, PartialEq, Eq)]
pub struct Intent {
    /// In every how many reports the intent stands; 0 means never.
    pub modulus: u8,
    /// How far ahead the intent is projected, in minutes, from 1 to 255.
    pub minutes: u8,
    ghost projects: { 0 < minutes },
}

/// The altitude range of an event request (group 19). A sample above the ceiling or below the floor
/// is outside of it.
#[derive(Clone, Copy, Debug, PartialEq, Eq)]
pub struct Range {
    /// The ceiling in 4 ft, from -32768 to 32767.
    pub ceiling: i32,
    /// The floor in 4 ft, from -32768 to 32767, below the ceiling.
    pub floor: i32,
    ghost ceiling_fits: { FitsSigned w16 ceiling },
    ghost floor_fits: { FitsSigned w16 floor },
    ghost ordered: { floor <ℤ ceiling },
}

/// In every how many reports of a periodic contract each of the groups 12 to 17 stands.
#[derive(Clone, Copy, Debug, PartialEq, Eq)]
pub struct Moduli {
    /// At place `i` the modulus of group `12 + i`, where the request has that group; 0 means never.
    pub m: [Option<u8>; 6],
    ghost six: { length m ≡ 6 },
}

/// What an event request watches: at least one of three limits and the active waypoint.
#[derive(Clone, Copy, Debug, PartialEq, Eq)]
pub struct Limits {
    /// The lateral deviation threshold (group 10) in 0.125 NM, not 0.
    pub lateral: Option<u8>,
    /// The vertical rate threshold (group 18) in 64 ft/min, not 0.
    pub vrate: Option<i8>,
    /// The altitude range (group 19).
    pub range: Option<Range>,
    /// Whether a change of the active waypoint is reported (group 20).
    pub waypoint: bool,
    ghost lateral_above_0: { ForSome lateral (λ t. 0 < t) },
    ghost vrate_fits: { ForSome vrate (λ t. FitsSigned w8 t) },
    ghost vrate_not_0: { ForSome vrate (λ t. IsTrue (is_not_zero t)) },
    ghost watches: { IsTrue (is_watching lateral vrate range waypoint) },
}

/// One message of an uplink, after RTCA DO-258A / EUROCAE ED-100A in this project's profile.
/// `n` is the contract number that its sender chose.
#[derive(Clone, Copy, Debug, Default, PartialEq, Eq)]
pub enum Message {
    /// Cancel all contracts and terminate the connection (tag 1). It has no number. The default,
    /// which stands in the unused places of an [`Uplink`].
    #[default]
    CancelAll,
    /// Cancel the contract with this number (tag 2).
    Cancel {
        n: u8,
    },
    /// Cancel the emergency mode (tag 6).
    CancelEmergency {
        n: u8,
    },
    /// A periodic request (tag 7). `interval` is the octet of group 11 as sent: see
    /// [`interval_seconds`](crate::interval_seconds).
    Periodic {
        n: u8,
        interval: Option<u8>,
        groups: Moduli,
        intent: Option<Intent>,
    },
    /// An event request (tag 8).
    Event {
        n: u8,
        limits: Limits,
    },
    /// An emergency periodic request (tag 9), with the fields of a periodic request.
    Emergency {
        n: u8,
        interval: Option<u8>,
        groups: Moduli,
        intent: Option<Intent>,
    },
}

/// The payload of an uplink: 1 to 4 messages in their order.
#[derive(Debug, PartialEq, Eq, Drop)]
pub struct Uplink {
    /// The messages in the order in which they stand, 1 to 4.
    pub messages: ArrayVec<Message, 4>,
    ghost some: { 1 ≤ length messages.items },
    ghost few: { length messages.items ≤ 4 },
}
