//! The lines of uplink messages.
ghost use Rattle.std.specs.Prelude.{◌≡◌, ◌+◌, ◌*◌, ◌≤◌, ◌++◌, length, flat_map};
ghost use Rattle.shown_lines.specs.UplinkTexts.{lateral_text, interval_text, modulus_text, moduli_text, vrate_text, range_text, waypoint_text, intent_text, reporting_text, limits_text, message_text};
ghost use Rattle.shown_lines.specs.declared.room.TheConstants.{LINE_ROOM};

use crate::room::{MESSAGE_ROOM, Room};
use adsc_requests::{Intent, Limits, Message, Moduli, Range, interval_seconds};

/// Appends the lines of messages, one message after the other.
pub(crate) fn append_messages(out: &mut Room, messages: &[Message])
    requires { length out.old + MESSAGE_ROOM * length messages.now ≤ LINE_ROOM }
    ensures text { out.new ≡ out.old ++ flat_map message_text messages.now }
{
    for message in messages {
        append_message(out, message);
    }
}

/// Appends the lines of a message.
#[tactic(auto, unfolding(crate::specs::UplinkTexts::message_text))]
fn append_message(out: &mut Room, message: &Message)
    requires { length out.old + MESSAGE_ROOM ≤ LINE_ROOM }
    ensures text { out.new ≡ out.old ++ message_text message.now }
    ensures size { length out.new ≤ length out.old + MESSAGE_ROOM }
{
    match message {
        Message::CancelAll => out.append(b"cancel-all\n"),
        Message::Cancel { n } => out.append_numbered(b"cancel", *n as u32),
        Message::CancelEmergency { n } => out.append_numbered(b"cancel-emergency", *n as u32),
        Message::Periodic {
            n,
            interval,
            groups,
            intent,
        } => {
            out.append_numbered(b"periodic", *n as u32);
            append_reporting(out, *interval, groups, intent);
        }
        Message::Event { n, limits } => {
            out.append_numbered(b"event", *n as u32);
            append_limits(out, limits);
        }
        Message::Emergency {
            n,
            interval,
            groups,
            intent,
        } => {
            out.append_numbered(b"emergency", *n as u32);
            append_reporting(out, *interval, groups, intent);
        }
    }
}

/// Appends the lines of the groups of a periodic or an emergency periodic request, by rising tag.
#[tactic(auto, unfolding(crate::specs::UplinkTexts::reporting_text))]
fn append_reporting(out: &mut Room, interval: Option<u8>, groups: &Moduli, intent: &Option<Intent>)
    requires { length out.old + 217 ≤ LINE_ROOM }
    ensures text { out.new ≡ out.old ++ reporting_text interval groups.now.m intent.now }
    ensures size { length out.new ≤ length out.old + 217 }
{
    append_interval(out, interval);
    append_moduli(out, &groups.m);
    append_intent(out, intent);
}

/// Appends the lines of the groups of an event request, by rising tag.
#[tactic(auto, unfolding(crate::specs::UplinkTexts::limits_text))]
fn append_limits(out: &mut Room, limits: &Limits)
    requires { length out.old + 76 ≤ LINE_ROOM }
    ensures text { out.new ≡ out.old ++ limits_text limits.now }
    ensures size { length out.new ≤ length out.old + 76 }
{
    append_lateral(out, limits.lateral);
    append_vrate(out, limits.vrate);
    append_range(out, &limits.range);
    append_waypoint(out, limits.waypoint);
}

/// Appends the line of a lateral deviation threshold, where there is one.
fn append_lateral(out: &mut Room, lateral: Option<u8>)
    requires { length out.old + 19 ≤ LINE_ROOM }
    ensures text { out.new ≡ out.old ++ lateral_text lateral }
    ensures size { length out.new ≤ length out.old + 19 }
{
    if let Some(threshold) = lateral {
        out.append_numbered(b"lateral", threshold as u32);
    }
}

/// Appends the line of a reporting interval, in seconds, where there is one.
fn append_interval(out: &mut Room, interval: Option<u8>)
    requires { length out.old + 20 ≤ LINE_ROOM }
    ensures text { out.new ≡ out.old ++ interval_text interval }
    ensures size { length out.new ≤ length out.old + 20 }
{
    if let Some(octet) = interval {
        out.append_numbered(b"interval", interval_seconds(octet));
    }
}

/// Appends the lines of reporting moduli, of which the first belongs to the group of tag 12.
fn append_moduli(out: &mut Room, moduli: &[Option<u8>; 6])
    requires { length out.old + 168 ≤ LINE_ROOM }
    ensures text { out.new ≡ out.old ++ moduli_text 12 moduli.now }
    ensures size { length out.new ≤ length out.old + 168 }
{
    for place in 0..6u8 {
        append_modulus(out, 12 + place, moduli[place as usize]);
    }
}

/// Appends the line of a reporting modulus, where there is one, with the tag of its group.
fn append_modulus(out: &mut Room, tag: u8, modulus: Option<u8>)
    requires { length out.old + 28 ≤ LINE_ROOM }
    ensures text { out.new ≡ out.old ++ modulus_text tag modulus }
    ensures size { length out.new ≤ length out.old + 28 }
{
    let Some(modulus) = modulus else {
        return;
    };
    out.append(b"group");
    out.append_number(tag as u32);
    out.append_number(modulus as u32);
    out.append(b"\n");
}

/// Appends the line of a vertical rate threshold, where there is one.
fn append_vrate(out: &mut Room, vrate: Option<i8>)
    requires { length out.old + 18 ≤ LINE_ROOM }
    ensures text { out.new ≡ out.old ++ vrate_text vrate }
    ensures size { length out.new ≤ length out.old + 18 }
{
    let Some(threshold) = vrate else {
        return;
    };
    out.append(b"vrate");
    out.append_signed(threshold as i32);
    out.append(b"\n");
}

/// Appends the line of an altitude range, where there is one.
fn append_range(out: &mut Room, range: &Option<Range>)
    requires { length out.old + 30 ≤ LINE_ROOM }
    ensures text { out.new ≡ out.old ++ range_text range.now }
    ensures size { length out.new ≤ length out.old + 30 }
{
    let Some(range) = range else {
        return;
    };
    out.append(b"range");
    out.append_signed(range.ceiling);
    out.append_signed(range.floor);
    out.append(b"\n");
}

/// Appends the line of a change of the active waypoint, where it is watched.
fn append_waypoint(out: &mut Room, waypoint: bool)
    requires { length out.old + 9 ≤ LINE_ROOM }
    ensures text { out.new ≡ out.old ++ waypoint_text waypoint }
    ensures size { length out.new ≤ length out.old + 9 }
{
    if waypoint {
        out.append(b"waypoint\n");
    }
}

/// Appends the line of an aircraft intent, where one is asked for.
fn append_intent(out: &mut Room, intent: &Option<Intent>)
    requires { length out.old + 29 ≤ LINE_ROOM }
    ensures text { out.new ≡ out.old ++ intent_text intent.now }
    ensures size { length out.new ≤ length out.old + 29 }
{
    let Some(intent) = intent else {
        return;
    };
    out.append(b"intent");
    out.append_number(intent.modulus as u32);
    out.append_number(intent.minutes as u32);
    out.append(b"\n");
}
