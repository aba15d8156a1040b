//! An uplink as its payload.

ghost use Rattle.std.specs.Prelude.{◌≡◌, ◌≤◌, ◌+◌, ◌*◌, ◌++◌, ◌↔◌, IsTrue, [], ◌∷◌, Some, None, option_map, if◌then◌else◌, FitsSigned};
ghost use Rattle.std.specs.Int.{w16};
ghost use Rattle.arrayvec.specs.ArrayVec.{array_vec_len};
ghost use Rattle.adsc_requests.specs.Contents.{content_of, single, octet_8, octets_16, range_octets, intent_octets, report_octets, event_octets};
ghost use Rattle.adsc_requests.specs.Grammar.{message_octets, uplink_octets, EncodesUplink};
ghost use Rattle.adsc_requests.specs.Writing.{octets_if, collected_octets, modulus_tags, moduli_octets};

use crate::message::{Intent, Limits, Message, Moduli, Range, Uplink};
use crate::tags::{
    CANCEL, CANCEL_ALL, CANCEL_EMERGENCY, EMERGENCY, EVENT, FIRST_MODULUS, INTENT, INTERVAL,
    LATERAL, PERIODIC, RANGE, VERTICAL_RATE, WAYPOINT,
};
use arrayvec::ArrayVec;

/// A payload while it is written.
type Payload = ArrayVec<u8, 255>;

/// A message's tag and number.
fn put_head(out: &mut Payload, tag: u8, number: u8)
    requires { array_vec_len out.old ≤ 253 }
    ensures octets { out.new.items ≡ out.old.items ++ tag ∷ number ∷ [] }
    ensures len { array_vec_len out.new ≡ array_vec_len out.old + 2 }
{
    out.push(tag);
    out.push(number);
}

fn put_octet(out: &mut Payload, tag: u8, octet: Option<u8>)
    requires { array_vec_len out.old ≤ 253 }
    ensures octets { out.new.items ≡ out.old.items ++ octets_if tag (option_map single octet) }
    ensures len { array_vec_len out.new ≤ array_vec_len out.old + 2 }
{
    if let Some(octet) = octet {
        out.push(tag);
        out.push(octet);
    }
}

fn put_intent(out: &mut Payload, intent: Option<Intent>)
    requires { array_vec_len out.old ≤ 252 }
    ensures octets { out.new.items
        ≡ out.old.items ++ octets_if 21 (option_map intent_octets intent) }
    ensures len { array_vec_len out.new ≤ array_vec_len out.old + 3 }
{
    if let Some(intent) = intent {
        out.push(INTENT);
        out.push(intent.modulus);
        out.push(intent.minutes);
    }
}

fn put_vrate(out: &mut Payload, vrate: Option<i8>)
    requires { array_vec_len out.old ≤ 253 }
    ensures octets { out.new.items ≡ out.old.items ++ octets_if 18 (option_map octet_8 vrate) }
    ensures len { array_vec_len out.new ≤ array_vec_len out.old + 2 }
{
    if let Some(vrate) = vrate {
        out.push(VERTICAL_RATE);
        out.push(vrate.cast_unsigned());
    }
}

/// An altitude in 4 ft.
fn put_altitude(out: &mut Payload, altitude: i32)
    requires room { array_vec_len out.old ≤ 253 }
    requires fits { FitsSigned w16 altitude }
    ensures octets { out.new.items ≡ out.old.items ++ octets_16 altitude }
    ensures len { array_vec_len out.new ≡ array_vec_len out.old + 2 }
{
    let [high, low] = (altitude as i16).to_be_bytes();
    out.push(high);
    out.push(low);
}

fn put_range(out: &mut Payload, range: Option<Range>)
    requires { array_vec_len out.old ≤ 250 }
    ensures octets { out.new.items ≡ out.old.items ++ octets_if 19 (option_map range_octets range) }
    ensures len { array_vec_len out.new ≤ array_vec_len out.old + 5 }
{
    if let Some(range) = range {
        out.push(RANGE);
        put_altitude(out, range.ceiling);
        put_altitude(out, range.floor);
    }
}

fn put_waypoint(out: &mut Payload, waypoint: bool)
    requires { array_vec_len out.old ≤ 254 }
    ensures octets { out.new.items
        ≡ out.old.items ++ octets_if 20 (if waypoint then Some [] else None) }
    ensures len { array_vec_len out.new ≤ array_vec_len out.old + 1 }
{
    if waypoint {
        out.push(WAYPOINT);
    }
}

fn put_moduli(out: &mut Payload, groups: Moduli)
    requires { array_vec_len out.old ≤ 243 }
    ensures octets { out.new.items ≡ out.old.items ++ moduli_octets groups.m modulus_tags }
    ensures len { array_vec_len out.new ≤ array_vec_len out.old + 12 }
{
    for place in 0..6u8 {
        put_octet(out, FIRST_MODULUS + place, groups.m[place as usize]);
    }
}

/// The groups of a periodic or an emergency request by rising tag.
fn put_report(out: &mut Payload, interval: Option<u8>, groups: Moduli, intent: Option<Intent>)
    requires { array_vec_len out.old ≤ 238 }
    ensures octets { out.new.items
        ≡ out.old.items ++ collected_octets (report_octets interval groups.m intent) }
    ensures len { array_vec_len out.new ≤ array_vec_len out.old + 17 }
{
    put_octet(out, INTERVAL, interval);
    put_moduli(out, groups);
    put_intent(out, intent);
}

/// The groups of an event request by rising tag.
fn put_limits(out: &mut Payload, limits: &Limits)
    requires { array_vec_len out.old ≤ 245 }
    ensures octets { out.new.items ≡ out.old.items
        ++ collected_octets (event_octets limits.now.lateral limits.now.vrate
        limits.now.range limits.now.waypoint) }
    ensures len { array_vec_len out.new ≤ array_vec_len out.old + 10 }
{
    put_octet(out, LATERAL, limits.lateral);
    put_vrate(out, limits.vrate);
    put_range(out, limits.range);
    put_waypoint(out, limits.waypoint);
}

#[tactic(auto, unfolding(crate::specs::Grammar::message_octets))]
fn put_message(out: &mut Payload, message: &Message)
    requires { array_vec_len out.old ≤ 236 }
    ensures octets { out.new.items ≡ out.old.items ++ message_octets (content_of message.now) }
    ensures len { array_vec_len out.new ≤ array_vec_len out.old + 19 }
{
    match message {
        Message::CancelAll => out.push(CANCEL_ALL),
        Message::Cancel { n } => put_head(out, CANCEL, *n),
        Message::CancelEmergency { n } => put_head(out, CANCEL_EMERGENCY, *n),
        Message::Periodic {
            n,
            interval,
            groups,
            intent,
        } => {
            put_head(out, PERIODIC, *n);
            put_report(out, *interval, *groups, *intent);
        }
        Message::Event { n, limits } => {
            put_head(out, EVENT, *n);
            put_limits(out, limits);
        }
        Message::Emergency {
            n,
            interval,
            groups,
            intent,
        } => {
            put_head(out, EMERGENCY, *n);
            put_report(out, *interval, *groups, *intent);
        }
    }
}

/// Writes the payload of an uplink: its messages in their order, the groups of each by rising tag.
/// It has at most 76 octets, and [`decode_uplink`](crate::decode_uplink) reads the uplink from it.
pub fn encode_uplink(uplink: &Uplink) -> ArrayVec<u8, 255>
    ensures octets { result.items ≡ uplink_octets uplink.now }
    ensures encoding { EncodesUplink uplink.now result.items }
    ensures len { array_vec_len result ≤ 76 }
{
    let mut out = ArrayVec::new();
    for message in uplink.messages.as_slice() {
        put_message(&mut out, message);
    }
    out
}
