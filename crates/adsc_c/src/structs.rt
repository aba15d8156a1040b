//! The flat structs that cross to C. Each may hold any numbers: a call tests a struct that it is given.

/// An octet that may be absent: then both fields are 0.
#[repr(C)]
#[derive(Clone, Copy)]
pub struct FlatOctet {
    /// 1 where the octet is there, else 0.
    pub present: u8,
    /// The octet.
    pub value: u8,
}

/// A vertical rate threshold that may be absent: then both fields are 0.
#[repr(C)]
#[derive(Clone, Copy)]
pub struct FlatRate {
    /// 1 where the threshold is there, else 0.
    pub present: u8,
    /// The threshold in 64 ft/min, not 0.
    pub value: i8,
}

/// An aircraft intent that may be absent: then all fields are 0.
#[repr(C)]
#[derive(Clone, Copy)]
pub struct FlatIntent {
    /// 1 where the intent is there, else 0.
    pub present: u8,
    /// In every how many reports the intent stands; 0 means never.
    pub modulus: u8,
    /// How far ahead the intent is projected, in minutes, from 1 to 255.
    pub minutes: u8,
}

/// An altitude range that may be absent: then all fields are 0.
#[repr(C)]
#[derive(Clone, Copy)]
pub struct FlatRange {
    /// 1 where the range is there, else 0.
    pub present: u8,
    /// The ceiling in 4 ft.
    pub ceiling: i16,
    /// The floor in 4 ft, below the ceiling.
    pub floor: i16,
}

/// In every how many reports of a periodic contract each of the groups 12 to 17 stands; 0 means never.
#[repr(C)]
#[derive(Clone, Copy)]
pub struct FlatModuli {
    /// Flight identification, group 12.
    pub flight_id: FlatOctet,
    /// Predicted route, group 13.
    pub route: FlatOctet,
    /// Earth reference, group 14.
    pub earth: FlatOctet,
    /// Air reference, group 15.
    pub air: FlatOctet,
    /// Meteorological data, group 16.
    pub weather: FlatOctet,
    /// Airframe identification, group 17.
    pub airframe: FlatOctet,
}

/// What a periodic or an emergency request asks for. In every other message all fields are 0.
#[repr(C)]
#[derive(Clone, Copy)]
pub struct FlatReporting {
    /// The octet of the reporting interval.
    pub interval: FlatOctet,
    /// The moduli of the groups.
    pub moduli: FlatModuli,
    /// The aircraft intent.
    pub intent: FlatIntent,
}

/// What an event request watches, at least one of the four. In every other message all fields are 0.
#[repr(C)]
#[derive(Clone, Copy)]
pub struct FlatLimits {
    /// The lateral deviation threshold in 0.125 NM, not 0.
    pub lateral: FlatOctet,
    /// The vertical rate threshold.
    pub vertical_rate: FlatRate,
    /// 1 where the active waypoint is watched, else 0.
    pub waypoint: u8,
    /// The altitude range.
    pub range: FlatRange,
}

/// A message of an uplink (RTCA DO-258A / EUROCAE ED-100A). What a message of its tag doesn't have is 0.
#[repr(C)]
#[derive(Clone, Copy)]
pub struct FlatMessage {
    /// The message's tag: cancel all 1, cancel 2, cancel emergency mode 6, periodic request 7, event request 8,
    /// emergency periodic request 9.
    pub tag: u8,
    /// The contract number that its sender chose; 0 for a cancel of all.
    pub number: u8,
    /// What a periodic or an emergency request asks for.
    pub reporting: FlatReporting,
    /// What an event request watches.
    pub limits: FlatLimits,
}

/// An uplink: 1 to 4 messages.
#[repr(C)]
#[derive(Clone, Copy)]
pub struct FlatUplink {
    /// How many messages it has, 1 to 4.
    pub count: u8,
    /// The messages in their order; behind them all is 0.
    pub messages: [FlatMessage; 4],
}

/// Why a payload is no uplink: its first fault.
#[repr(C)]
#[derive(Clone, Copy)]
pub struct FlatUplinkRefusal {
    /// The first bit of the faulty octet or field, counted from 0.
    pub bit: u32,
    /// The reason, 1 to 13.
    pub reason: u8,
    /// The number of the message that was being read, or 0.
    pub number: u8,
    /// The octet of the bit, counted from 1.
    pub octet: u8,
}

/// A payload: up to 255 octets.
#[repr(C)]
#[derive(Clone, Copy)]
pub struct FlatPayload {
    /// How many octets it has.
    pub count: u8,
    /// The octets; behind them all is 0.
    pub octets: [u8; 255],
}

/// An envelope: the ground facility that it goes to or comes from, and what it carries (ARINC 622).
#[repr(C)]
#[derive(Clone, Copy)]
pub struct FlatEnvelope {
    /// The facility's address: seven of `A` to `Z` and `0` to `9`.
    pub address: [u8; 7],
    /// The application that the body is for: 1 is ADS, 2 is AFN.
    pub application: u8,
    /// The aircraft's registration, for ADS: seven characters, dots before its mark of one to seven of `A` to `Z`, `0` to
    /// `9` and `-`. For AFN all seven are 0.
    pub registration: [u8; 7],
    /// How many octets or characters the body has, 1 to 255.
    pub count: u8,
    /// The octets of a payload, or the characters of an AFN text, from 20 to 7E hexadecimal.
    pub body: [u8; 255],
}

/// Why a text is no envelope's: its first bad place.
#[repr(C)]
#[derive(Clone, Copy)]
pub struct FlatEnvelopeRefusal {
    /// The first bad place, counted from 0.
    pub place: u32,
    /// What is wrong there: slash 1, address 2, dot 3, letters of the application 4, registration 5, hexadecimal digit 6,
    /// character 7, too short 8, too long 9, check 10.
    pub why: u8,
    /// The check that stands in the text, where it is wrong; else 0.
    pub found: u16,
    /// The check that is due, where another stands in the text; else 0.
    pub due: u16,
}

/// The sizes that `include/adsc.h` states.
const _: () = prove!(size_of::<FlatOctet>() == 2);

const _: () = prove!(size_of::<FlatRange>() == 6);

const _: () = prove!(size_of::<FlatReporting>() == 17);

const _: () = prove!(size_of::<FlatLimits>() == 12);

const _: () = prove!(size_of::<FlatMessage>() == 32);

const _: () = prove!(size_of::<FlatUplink>() == 130);

const _: () = prove!(size_of::<FlatUplinkRefusal>() == 8);

const _: () = prove!(size_of::<FlatPayload>() == 256);

const _: () = prove!(size_of::<FlatEnvelope>() == 271);

const _: () = prove!(size_of::<FlatEnvelopeRefusal>() == 12);
