//! Values of flat structs: the value that a flat struct spells, or None where it spells none.

ghost use Rattle.std.specs.Prelude.{◌≡◌, ◌<◌, ◌≤◌, ◌+◌, min, IsSome, OnSome};
ghost use Rattle.arrayvec.specs.ArrayVec.{array_vec_len};
ghost use Rattle.adsc_requests.specs.declared.message.Uplink.{Uplink as UplinkValue};
ghost use Rattle.adsc_c.specs.Uplinks.{AreSpelled, Reads, flat_bool, flat_intent, flat_limits, flat_message, flat_moduli, flat_octet, flat_range, flat_rate, flat_reporting, flat_uplink};

use crate::flat::{flat_parts, no_limits, no_message, no_reporting};
use crate::same::{same_limits, same_message, same_reporting};
use crate::structs::{
    FlatIntent, FlatLimits, FlatMessage, FlatModuli, FlatOctet, FlatRange, FlatRate, FlatReporting,
    FlatUplink,
};
use adsc_requests::{Intent, Limits, Message, Moduli, Range, Uplink};
use arrayvec::ArrayVec;

fn octet_of(flat: FlatOctet) -> Option<Option<u8>>
    ensures { Reads flat_octet result flat }
{
    match (flat.present, flat.value) {
        (0, 0) => Some(None),
        (1, octet) => Some(Some(octet)),
        _ => None,
    }
}

fn rate_of(flat: FlatRate) -> Option<Option<i8>>
    ensures { Reads flat_rate result flat }
{
    match (flat.present, flat.value) {
        (0, 0) => Some(None),
        (1, rate) => Some(Some(rate)),
        _ => None,
    }
}

fn intent_of(flat: FlatIntent) -> Option<Option<Intent>>
    ensures { Reads flat_intent result flat }
{
    let FlatIntent {
        present,
        modulus,
        minutes,
    } = flat;
    match (present, modulus, minutes) {
        (0, 0, 0) => Some(None),
        (1, modulus, 1..) => Some(Some(Intent { modulus, minutes })),
        _ => None,
    }
}

fn range_of(flat: FlatRange) -> Option<Option<Range>>
    ensures { Reads flat_range result flat }
{
    let (ceiling, floor) = (i32::from(flat.ceiling), i32::from(flat.floor));
    if flat.present == 1 && floor < ceiling {
        Some(Some(Range { ceiling, floor }))
    } else if flat.present == 0 && ceiling == 0 && floor == 0 {
        Some(None)
    } else {
        None
    }
}

fn bool_of(flat: u8) -> Option<bool>
    ensures { Reads flat_bool result flat }
{
    match flat {
        0 => Some(false),
        1 => Some(true),
        _ => None,
    }
}

#[tactic(auto, unfolding(crate::specs::Uplinks::flat_moduli))]
fn moduli_of(flat: FlatModuli) -> Option<Moduli>
    ensures { Reads flat_moduli result flat }
{
    let flight_id = octet_of(flat.flight_id)?;
    let route = octet_of(flat.route)?;
    let earth = octet_of(flat.earth)?;
    let air = octet_of(flat.air)?;
    let weather = octet_of(flat.weather)?;
    let airframe = octet_of(flat.airframe)?;
    Some(Moduli {
        m: [flight_id, route, earth, air, weather, airframe],
    })
}

/// What a request for reports asks for.
#[tactic(auto, unfolding(crate::specs::Uplinks::flat_reporting))]
fn reporting_of(flat: FlatReporting) -> Option<(Option<u8>, Moduli, Option<Intent>)>
    ensures { Reads flat_reporting result flat }
{
    let interval = octet_of(flat.interval)?;
    let groups = moduli_of(flat.moduli)?;
    let intent = intent_of(flat.intent)?;
    Some((interval, groups, intent))
}

/// What an event request watches.
#[tactic(auto, unfolding(crate::specs::Uplinks::flat_limits))]
fn limits_of(flat: FlatLimits) -> Option<Limits>
    ensures { Reads flat_limits result flat }
{
    let lateral = octet_of(flat.lateral)?;
    let vrate = rate_of(flat.vertical_rate)?;
    let range = range_of(flat.range)?;
    let waypoint = bool_of(flat.waypoint)?;
    if lateral == Some(0) || vrate == Some(0) {
        return None;
    }
    if lateral.is_none() && vrate.is_none() && range.is_none() && !waypoint {
        return None;
    }
    Some(Limits {
        lateral,
        vrate,
        range,
        waypoint,
    })
}

/// The message that a flat struct spells.
pub(crate) fn message_of(flat: &FlatMessage) -> Option<Message>
    ensures { Reads flat_message result flat.now }
{
    match flat.tag {
        1 => cancel_all_of(flat),
        2 => cancel_of(flat),
        6 => cancel_emergency_of(flat),
        7 => periodic_of(flat),
        8 => event_of(flat),
        9 => emergency_of(flat),
        _ => None,
    }
}

fn cancel_all_of(flat: &FlatMessage) -> Option<Message>
    requires { flat.now.tag ≡ 1 }
    ensures { Reads flat_message result flat.now }
{
    if same_message(*flat, flat_parts(1, 0, no_reporting(), no_limits())) {
        Some(Message::CancelAll)
    } else {
        None
    }
}

fn cancel_of(flat: &FlatMessage) -> Option<Message>
    requires { flat.now.tag ≡ 2 }
    ensures { Reads flat_message result flat.now }
{
    let n = flat.number;
    if same_message(*flat, flat_parts(2, n, no_reporting(), no_limits())) {
        Some(Message::Cancel { n })
    } else {
        None
    }
}

fn cancel_emergency_of(flat: &FlatMessage) -> Option<Message>
    requires { flat.now.tag ≡ 6 }
    ensures { Reads flat_message result flat.now }
{
    let n = flat.number;
    if same_message(*flat, flat_parts(6, n, no_reporting(), no_limits())) {
        Some(Message::CancelEmergency { n })
    } else {
        None
    }
}

fn periodic_of(flat: &FlatMessage) -> Option<Message>
    requires { flat.now.tag ≡ 7 }
    ensures { Reads flat_message result flat.now }
{
    if !same_limits(flat.limits, no_limits()) {
        return None;
    }
    let (interval, groups, intent) = reporting_of(flat.reporting)?;
    Some(Message::Periodic {
        n: flat.number,
        interval,
        groups,
        intent,
    })
}

fn event_of(flat: &FlatMessage) -> Option<Message>
    requires { flat.now.tag ≡ 8 }
    ensures { Reads flat_message result flat.now }
{
    if !same_reporting(flat.reporting, no_reporting()) {
        return None;
    }
    let limits = limits_of(flat.limits)?;
    Some(Message::Event {
        n: flat.number,
        limits,
    })
}

fn emergency_of(flat: &FlatMessage) -> Option<Message>
    requires { flat.now.tag ≡ 9 }
    ensures { Reads flat_message result flat.now }
{
    if !same_limits(flat.limits, no_limits()) {
        return None;
    }
    let (interval, groups, intent) = reporting_of(flat.reporting)?;
    Some(Message::Emergency {
        n: flat.number,
        interval,
        groups,
        intent,
    })
}

/// Puts the message at a place behind those before it, where the uplink has one there. None where what stands there spells
/// none.
fn put_at(messages: &mut ArrayVec<Message, 4>, flat: &FlatUplink, place: u8) -> Option<()>
    requires place { place < 4 }
    requires count { flat.now.count ≤ 4 }
    requires len { array_vec_len messages.old ≡ min place flat.now.count }
    requires before { AreSpelled place flat.now.messages messages.old.items }
    ensures len { OnSome result (array_vec_len messages.new ≡ min (place + 1) flat.now.count) }
    ensures before { OnSome result (AreSpelled (place + 1) flat.now.messages messages.new.items) }
    ensures each { (u : UplinkValue) → flat_uplink u ≡ flat.now → IsSome result }
{
    let here = &flat.messages[place as usize];
    if place < flat.count {
        messages.push(message_of(here)?);
        Some(())
    } else if same_message(*here, no_message()) {
        Some(())
    } else {
        None
    }
}

/// The uplink that a flat struct spells.
pub(crate) fn uplink_of(flat: &FlatUplink) -> Option<Uplink>
    ensures { Reads flat_uplink result flat.now }
{
    if flat.count < 1 || flat.count > 4 {
        return None;
    }
    let mut messages = ArrayVec::new();
    put_at(&mut messages, flat, 0)?;
    put_at(&mut messages, flat, 1)?;
    put_at(&mut messages, flat, 2)?;
    put_at(&mut messages, flat, 3)?;
    Some(Uplink { messages })
}
