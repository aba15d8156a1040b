//! Flat structs of values.

ghost use Rattle.std.specs.Prelude.{◌≡◌, ◌<◌, ◌≤◌, length};
ghost use Rattle.adsc_c.specs.Uplinks.{flat_at, flat_bool, flat_intent, flat_limits, flat_message, flat_moduli, flat_octet, flat_parts, flat_range, flat_rate, flat_refusal, flat_reporting, flat_uplink, kind_number, no_limits, no_message, no_moduli, no_reporting, octets_in};

use crate::structs::{
    FlatIntent, FlatLimits, FlatMessage, FlatModuli, FlatOctet, FlatPayload, FlatRange, FlatRate,
    FlatReporting, FlatUplink, FlatUplinkRefusal,
};
use adsc_requests::{Intent, Kind, Limits, Message, Moduli, Range, Refusal, Uplink};

fn flat_octet(octet: Option<u8>) -> FlatOctet
    ensures { result ≡ flat_octet octet }
{
    match octet {
        None => FlatOctet {
            present: 0,
            value: 0,
        },
        Some(value) => FlatOctet { present: 1, value },
    }
}

fn flat_rate(rate: Option<i8>) -> FlatRate
    ensures { result ≡ flat_rate rate }
{
    match rate {
        None => FlatRate {
            present: 0,
            value: 0,
        },
        Some(value) => FlatRate { present: 1, value },
    }
}

fn flat_intent(intent: Option<Intent>) -> FlatIntent
    ensures { result ≡ flat_intent intent }
{
    match intent {
        None => FlatIntent {
            present: 0,
            modulus: 0,
            minutes: 0,
        },
        Some(intent) => FlatIntent {
            present: 1,
            modulus: intent.modulus,
            minutes: intent.minutes,
        },
    }
}

fn flat_range(range: Option<Range>) -> FlatRange
    ensures { result ≡ flat_range range }
{
    match range {
        None => FlatRange {
            present: 0,
            ceiling: 0,
            floor: 0,
        },
        Some(range) => FlatRange {
            present: 1,
            ceiling: range.ceiling as i16,
            floor: range.floor as i16,
        },
    }
}

fn flat_bool(flag: bool) -> u8
    ensures { result ≡ flat_bool flag }
{
    if flag { 1 } else { 0 }
}

#[tactic(auto, unfolding(crate::specs::Uplinks::flat_moduli))]
fn flat_moduli(groups: Moduli) -> FlatModuli
    ensures { result ≡ flat_moduli groups }
{
    let m = groups.m;
    FlatModuli {
        flight_id: flat_octet(m[0]),
        route: flat_octet(m[1]),
        earth: flat_octet(m[2]),
        air: flat_octet(m[3]),
        weather: flat_octet(m[4]),
        airframe: flat_octet(m[5]),
    }
}

/// Six moduli that are absent.
#[tactic(auto, unfolding(crate::specs::Uplinks::no_moduli))]
fn no_moduli() -> FlatModuli
    ensures { result ≡ no_moduli }
{
    let none = flat_octet(None);
    FlatModuli {
        flight_id: none,
        route: none,
        earth: none,
        air: none,
        weather: none,
        airframe: none,
    }
}

/// What a request for reports asks for.
#[tactic(auto, unfolding(crate::specs::Uplinks::flat_reporting))]
fn flat_reporting(interval: Option<u8>, groups: Moduli, intent: Option<Intent>) -> FlatReporting
    ensures { result ≡ flat_reporting (interval, groups, intent) }
{
    FlatReporting {
        interval: flat_octet(interval),
        moduli: flat_moduli(groups),
        intent: flat_intent(intent),
    }
}

/// A message asks for no reports.
#[tactic(auto, unfolding(crate::specs::Uplinks::no_reporting))]
pub(crate) fn no_reporting() -> FlatReporting
    ensures { result ≡ no_reporting }
{
    FlatReporting {
        interval: flat_octet(None),
        moduli: no_moduli(),
        intent: flat_intent(None),
    }
}

/// What an event request watches.
#[tactic(auto, unfolding(crate::specs::Uplinks::flat_limits))]
fn flat_limits(limits: &Limits) -> FlatLimits
    ensures { result ≡ flat_limits limits.now }
{
    FlatLimits {
        lateral: flat_octet(limits.lateral),
        vertical_rate: flat_rate(limits.vrate),
        waypoint: flat_bool(limits.waypoint),
        range: flat_range(limits.range),
    }
}

/// A message watches nothing.
#[tactic(auto, unfolding(crate::specs::Uplinks::no_limits))]
pub(crate) fn no_limits() -> FlatLimits
    ensures { result ≡ no_limits }
{
    FlatLimits {
        lateral: flat_octet(None),
        vertical_rate: flat_rate(None),
        waypoint: 0,
        range: flat_range(None),
    }
}

/// A message of this tag and number.
pub(crate) fn flat_parts(
    tag: u8,
    number: u8,
    reporting: FlatReporting,
    limits: FlatLimits,
) -> FlatMessage
    ensures { result ≡ flat_parts tag number reporting limits }
{
    FlatMessage {
        tag,
        number,
        reporting,
        limits,
    }
}

/// What stands where no message does.
pub(crate) fn no_message() -> FlatMessage
    ensures { result ≡ no_message }
{
    flat_parts(0, 0, no_reporting(), no_limits())
}

/// The flat struct of a message.
pub(crate) fn flat_message(message: &Message) -> FlatMessage
    ensures { result ≡ flat_message message.now }
{
    match message {
        Message::CancelAll => flat_parts(1, 0, no_reporting(), no_limits()),
        Message::Cancel { n } => flat_parts(2, *n, no_reporting(), no_limits()),
        Message::CancelEmergency { n } => flat_parts(6, *n, no_reporting(), no_limits()),
        Message::Periodic {
            n,
            interval,
            groups,
            intent,
        } => flat_parts(
            7,
            *n,
            flat_reporting(*interval, *groups, *intent),
            no_limits(),
        ),
        Message::Event { n, limits } => flat_parts(8, *n, no_reporting(), flat_limits(limits)),
        Message::Emergency {
            n,
            interval,
            groups,
            intent,
        } => flat_parts(
            9,
            *n,
            flat_reporting(*interval, *groups, *intent),
            no_limits(),
        ),
    }
}

/// What stands at a place of an uplink's flat struct.
fn flat_at(messages: &[Message], place: usize) -> FlatMessage
    ensures { result ≡ flat_at messages.now place }
{
    match messages.get(place) {
        Some(message) => flat_message(message),
        None => no_message(),
    }
}

/// The flat struct of an uplink.
pub(crate) fn flat_uplink(uplink: &Uplink) -> FlatUplink
    ensures { result ≡ flat_uplink uplink.now }
{
    let messages = uplink.messages.as_slice();
    FlatUplink {
        count: messages.len() as u8,
        messages: [
            flat_at(messages, 0),
            flat_at(messages, 1),
            flat_at(messages, 2),
            flat_at(messages, 3),
        ],
    }
}

/// The flat struct of a refusal.
pub(crate) fn flat_refusal(refusal: Refusal) -> FlatUplinkRefusal
    ensures { result ≡ flat_refusal refusal }
{
    FlatUplinkRefusal {
        bit: refusal.bit,
        reason: refusal.reason,
        number: refusal.number,
        octet: refusal.octet,
    }
}

/// The number of a kind of contract.
pub(crate) fn kind_number(kind: Option<Kind>) -> u8
    ensures { result ≡ kind_number kind }
{
    match kind {
        None => 0,
        Some(Kind::Demand) => 1,
        Some(Kind::Periodic) => 2,
        Some(Kind::Event) => 3,
        Some(Kind::Emergency) => 4,
    }
}

/// The flat struct of a payload's octets.
pub(crate) fn flat_payload(octets: &[u8]) -> FlatPayload
    requires { length octets.now ≤ 255 }
    ensures { octets_in result ≡ octets.now }
{
    let mut held = [0u8; 255];
    held[..octets.len()].copy_from_slice(octets);
    FlatPayload {
        count: octets.len() as u8,
        octets: held,
    }
}
