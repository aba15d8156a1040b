//! The lines of report groups.
ghost use Rattle.std.specs.Prelude.{◌≡◌, ◌+◌, ◌≤◌, ◌∷◌, ◌++◌, length, map, unsigned_abs};
ghost use Rattle.adsc_groups.specs.GroupView.{group_data, flight_id_values, route_values, motion_values, weather_values, intermediate_values, fixed_values};
ghost use Rattle.output_fields.specs.Fields.{comma};
ghost use Rattle.shown_lines.specs.Fields.{value_fields};
ghost use Rattle.shown_lines.specs.Texts.{flight_character, group_values, group_text};
ghost use Rattle.shown_lines.specs.declared.room.TheConstants.{LINE_ROOM};

use crate::room::{GROUP_ROOM, Room};
use adsc_groups::{Fixed, FlightId, Group, Intermediate, Motion, Route, Weather, group_tag};

/// Appends the line of a group.
#[tactic(auto, unfolding(crate::specs::Texts::group_text))]
pub(crate) fn append_group(out: &mut Room, group: &Group)
    requires { length out.old + GROUP_ROOM ≤ LINE_ROOM }
    ensures text { out.new ≡ out.old ++ group_text (group_data group.now) }
    ensures size { length out.new ≤ length out.old + GROUP_ROOM }
{
    out.append(b"group");
    out.append_number(group_tag(group) as u32);
    append_group_values(out, group);
    out.append(b"\n");
}

/// Appends the values of a group, a comma before each.
fn append_group_values(out: &mut Room, group: &Group)
    requires { length out.old + 84 ≤ LINE_ROOM }
    ensures text { out.new ≡ out.old ++ group_values (group_data group.now) }
    ensures size { length out.new ≤ length out.old + 84 }
{
    match group {
        Group::FlightId(id) => append_flight_id(out, id),
        Group::Route(route) => append_route(out, route),
        Group::Earth(motion) => append_motion(out, motion),
        Group::Air(motion) => append_motion(out, motion),
        Group::Weather(weather) => append_weather(out, weather),
        Group::Airframe(airframe) => out.append_airframe(airframe.address),
        Group::Intermediate(intermediate) => append_intermediate(out, intermediate),
        Group::Fixed(fixed) => append_fixed(out, fixed),
    }
}

/// Appends a comma and the eight characters of a flight identification.
fn append_flight_id(out: &mut Room, id: &FlightId)
    requires { length out.old + 9 ≤ LINE_ROOM }
    ensures text { out.new ≡ out.old
        ++ comma ∷ map (λ code. flight_character (unsigned_abs code)) (flight_id_values id.now) }
    ensures size { length out.new ≤ length out.old + 9 }
{
    out.append(&[
        b',',
        character_of(id.codes[0]),
        character_of(id.codes[1]),
        character_of(id.codes[2]),
        character_of(id.codes[3]),
        character_of(id.codes[4]),
        character_of(id.codes[5]),
        character_of(id.codes[6]),
        character_of(id.codes[7]),
    ]);
}

/// The character of a code of six bits, or `?` where the code has none.
fn character_of(code: u8) -> u8
    ensures { result ≡ flight_character code }
{
    match code {
        1..=26 => code + 64,
        32 => code,
        48..=57 => code,
        _ => b'?',
    }
}

/// Appends the values of a predicted route.
fn append_route(out: &mut Room, route: &Route)
    requires { length out.old + 84 ≤ LINE_ROOM }
    ensures text { out.new ≡ out.old ++ value_fields (route_values route.now) }
    ensures size { length out.new ≤ length out.old + 84 }
{
    out.append_values(&[
        route.lat,
        route.lon,
        route.alt,
        route.eta as i32,
        route.next_lat,
        route.next_lon,
        route.next_alt,
    ]);
}

/// Appends the values of an earth or an air reference.
fn append_motion(out: &mut Room, motion: &Motion)
    requires { length out.old + 48 ≤ LINE_ROOM }
    ensures text { out.new ≡ out.old ++ value_fields (motion_values motion.now) }
    ensures size { length out.new ≤ length out.old + 48 }
{
    out.append_values(&[
        motion.invalid as i32,
        motion.angle as i32,
        motion.speed as i32,
        motion.vrate,
    ]);
}

/// Appends the values of a meteorological group.
fn append_weather(out: &mut Room, weather: &Weather)
    requires { length out.old + 48 ≤ LINE_ROOM }
    ensures text { out.new ≡ out.old ++ value_fields (weather_values weather.now) }
    ensures size { length out.new ≤ length out.old + 48 }
{
    out.append_values(&[
        weather.wind as i32,
        weather.invalid as i32,
        weather.from as i32,
        weather.temp,
    ]);
}

/// Appends the values of an intermediate projected intent.
fn append_intermediate(out: &mut Room, intermediate: &Intermediate)
    requires { length out.old + 60 ≤ LINE_ROOM }
    ensures text { out.new ≡ out.old ++ value_fields (intermediate_values intermediate.now) }
    ensures size { length out.new ≤ length out.old + 60 }
{
    out.append_values(&[
        intermediate.distance as i32,
        intermediate.invalid as i32,
        intermediate.angle as i32,
        intermediate.alt,
        intermediate.eta as i32,
    ]);
}

/// Appends the values of a fixed projected intent.
fn append_fixed(out: &mut Room, fixed: &Fixed)
    requires { length out.old + 48 ≤ LINE_ROOM }
    ensures text { out.new ≡ out.old ++ value_fields (fixed_values fixed.now) }
    ensures size { length out.new ≤ length out.old + 48 }
{
    out.append_values(&[fixed.lat, fixed.lon, fixed.alt, fixed.eta as i32]);
}
