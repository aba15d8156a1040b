//! What kind of contract a message asks for.

ghost use Rattle.std.specs.Prelude.{◌≡◌};
ghost use Rattle.adsc_requests.specs.Kind.{kind_in};
ghost use Rattle.contract_rules.specs.Messages.{interval_seconds as seconds_of};

use crate::message::Message;

/// What kind of contract a request asks for (RTCA DO-258A / EUROCAE ED-100A).
#[derive(Clone, Copy, Debug, PartialEq, Eq)]
pub enum Kind {
    /// One report, now.
    Demand,
    /// A report in every reporting interval.
    Periodic,
    /// A report when a limit is exceeded or the active waypoint changes.
    Event,
    /// Reports in emergency mode.
    Emergency,
}

/// The reporting interval in seconds that an octet of group 11 stands for: its two high bits are a
/// scale code (0, 1, 2, 3 for 0, 1, 8, 64 s), its six low bits a rate, and the interval is the
/// scale times one more than the rate, from 0 to 4096 s.
pub fn interval_seconds(octet: u8) -> u32
    ensures { result ≡ seconds_of octet }
{
    let scale = match octet / 64 {
        0 => 0,
        1 => 1,
        2 => 8,
        _ => 64,
    };
    scale * (u32::from(octet % 64) + 1)
}

/// What kind of contract a message asks for; a cancel asks for none. A periodic request without a
/// reporting interval, or with one of 0 s, is a demand: one report.
pub fn kind_of(message: &Message) -> Option<Kind>
    ensures { result ≡ kind_in message.now }
{
    match message {
        Message::CancelAll | Message::Cancel { .. } | Message::CancelEmergency { .. } => None,
        Message::Periodic { interval, .. } => match interval {
            Some(octet) if interval_seconds(*octet) > 0 => Some(Kind::Periodic),
            _ => Some(Kind::Demand),
        },
        Message::Event { .. } => Some(Kind::Event),
        Message::Emergency { .. } => Some(Kind::Emergency),
    }
}
