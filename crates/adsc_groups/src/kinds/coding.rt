//! Encoding and decoding of the data of each group, field by field in the order of its table.

ghost use Rattle.std.specs.Prelude.{◌≡◌, ◌+◌, ◌≤◌, ◌++◌, length};
ghost use Rattle.bit_terms.specs.Reading.{Gives};
ghost use Rattle.adsc_groups.specs.Fields.{fields_bits, fields_at};
ghost use Rattle.adsc_groups.specs.Tables.{flight_id_fields, route_fields, motion_fields, weather_fields, airframe_fields, intermediate_fields, fixed_fields};
ghost use Rattle.adsc_groups.specs.GroupView.{flight_id_values, route_values, motion_values, weather_values, airframe_values, intermediate_values, fixed_values};

use crate::kinds::{Airframe, Fixed, FlightId, Intermediate, Motion, Route, Weather};
use adsc_bits::{BitReader, BitWriter, Short};

/// Writes the data of the flight identification, with the padding zero.
pub(crate) fn encode_flight_id(id: &FlightId, out: &mut BitWriter)
    requires { length out.old + 48 ≤ 2040 }
    ensures bits { out.new ≡ out.old ++ fields_bits flight_id_fields (flight_id_values id.now) }
    ensures len { length out.new ≡ length out.old + 48 }
{
    out.put(id.codes[0] as u32, 6);
    out.put(id.codes[1] as u32, 6);
    out.put(id.codes[2] as u32, 6);
    out.put(id.codes[3] as u32, 6);
    out.put(id.codes[4] as u32, 6);
    out.put(id.codes[5] as u32, 6);
    out.put(id.codes[6] as u32, 6);
    out.put(id.codes[7] as u32, 6);
}

/// Writes the data of the predicted route, with the padding zero.
pub(crate) fn encode_route(route: &Route, out: &mut BitWriter)
    requires { length out.old + 136 ≤ 2040 }
    ensures bits { out.new ≡ out.old ++ fields_bits route_fields (route_values route.now) }
    ensures len { length out.new ≡ length out.old + 136 }
{
    out.put_signed(route.lat, 21);
    out.put_signed(route.lon, 21);
    out.put_signed(route.alt, 16);
    out.put(route.eta, 14);
    out.put_signed(route.next_lat, 21);
    out.put_signed(route.next_lon, 21);
    out.put_signed(route.next_alt, 16);
    out.put(0, 6);
}

/// Writes the data of the earth or air reference, with the padding zero.
pub(crate) fn encode_motion(motion: &Motion, out: &mut BitWriter)
    requires { length out.old + 40 ≤ 2040 }
    ensures bits { out.new ≡ out.old ++ fields_bits motion_fields (motion_values motion.now) }
    ensures len { length out.new ≡ length out.old + 40 }
{
    out.put(motion.invalid as u32, 1);
    out.put(motion.angle, 12);
    out.put(motion.speed, 13);
    out.put_signed(motion.vrate, 12);
    out.put(0, 2);
}

/// Writes the meteorological data, with the padding zero.
pub(crate) fn encode_weather(weather: &Weather, out: &mut BitWriter)
    requires { length out.old + 32 ≤ 2040 }
    ensures bits { out.new ≡ out.old ++ fields_bits weather_fields (weather_values weather.now) }
    ensures len { length out.new ≡ length out.old + 32 }
{
    out.put(weather.wind, 9);
    out.put(weather.invalid as u32, 1);
    out.put(weather.from, 9);
    out.put_signed(weather.temp, 12);
    out.put(0, 1);
}

/// Writes the data of the airframe identification, with the padding zero.
pub(crate) fn encode_airframe(airframe: &Airframe, out: &mut BitWriter)
    requires { length out.old + 24 ≤ 2040 }
    ensures bits { out.new ≡ out.old ++ fields_bits airframe_fields (airframe_values airframe.now) }
    ensures len { length out.new ≡ length out.old + 24 }
{
    out.put(airframe.address, 24);
}

/// Writes the data of the intermediate projected intent, with the padding zero.
pub(crate) fn encode_intermediate(intermediate: &Intermediate, out: &mut BitWriter)
    requires { length out.old + 64 ≤ 2040 }
    ensures bits { out.new
        ≡ out.old ++ fields_bits intermediate_fields (intermediate_values intermediate.now) }
    ensures len { length out.new ≡ length out.old + 64 }
{
    out.put(intermediate.distance, 16);
    out.put(intermediate.invalid as u32, 1);
    out.put(intermediate.angle, 12);
    out.put_signed(intermediate.alt, 16);
    out.put(intermediate.eta, 14);
    out.put(0, 5);
}

/// Writes the data of the fixed projected intent, with the padding zero.
pub(crate) fn encode_fixed(fixed: &Fixed, out: &mut BitWriter)
    requires { length out.old + 72 ≤ 2040 }
    ensures bits { out.new ≡ out.old ++ fields_bits fixed_fields (fixed_values fixed.now) }
    ensures len { length out.new ≡ length out.old + 72 }
{
    out.put_signed(fixed.lat, 21);
    out.put_signed(fixed.lon, 21);
    out.put_signed(fixed.alt, 16);
    out.put(fixed.eta, 14);
}

/// The data of the flight identification that stands next.
#[tactic(auto, unfolding(crate::specs::Fields::fields_at))]
pub(crate) fn decode_flight_id(from: &mut BitReader) -> Result<FlightId, Short>
    ensures { Gives flight_id_values (λ e. e.bit) result from.new
        (fields_at flight_id_fields from.old) }
{
    let codes = [
        from.take(6)? as u8,
        from.take(6)? as u8,
        from.take(6)? as u8,
        from.take(6)? as u8,
        from.take(6)? as u8,
        from.take(6)? as u8,
        from.take(6)? as u8,
        from.take(6)? as u8,
    ];
    Ok(FlightId { codes })
}

/// The data of the predicted route that stands next.
#[tactic(auto, unfolding(crate::specs::Fields::fields_at))]
pub(crate) fn decode_route(from: &mut BitReader) -> Result<Route, Short>
    ensures { Gives route_values (λ e. e.bit) result from.new (fields_at route_fields from.old) }
{
    let lat = from.take_signed(21)?;
    let lon = from.take_signed(21)?;
    let alt = from.take_signed(16)?;
    let eta = from.take(14)?;
    let next_lat = from.take_signed(21)?;
    let next_lon = from.take_signed(21)?;
    let next_alt = from.take_signed(16)?;
    from.take(6)?;
    Ok(Route {
        lat,
        lon,
        alt,
        eta,
        next_lat,
        next_lon,
        next_alt,
    })
}

/// The data of the earth or air reference that stands next.
#[tactic(auto, unfolding(crate::specs::Fields::fields_at))]
pub(crate) fn decode_motion(from: &mut BitReader) -> Result<Motion, Short>
    ensures { Gives motion_values (λ e. e.bit) result from.new (fields_at motion_fields from.old) }
{
    let invalid = from.take(1)? as u8;
    let angle = from.take(12)?;
    let speed = from.take(13)?;
    let vrate = from.take_signed(12)?;
    from.take(2)?;
    Ok(Motion {
        invalid,
        angle,
        speed,
        vrate,
    })
}

/// The meteorological data that stands next.
#[tactic(auto, unfolding(crate::specs::Fields::fields_at))]
pub(crate) fn decode_weather(reader: &mut BitReader) -> Result<Weather, Short>
    ensures { Gives weather_values (λ e. e.bit) result reader.new
        (fields_at weather_fields reader.old) }
{
    let wind = reader.take(9)?;
    let invalid = reader.take(1)? as u8;
    let from = reader.take(9)?;
    let temp = reader.take_signed(12)?;
    reader.take(1)?;
    Ok(Weather {
        wind,
        invalid,
        from,
        temp,
    })
}

/// The data of the airframe identification that stands next.
#[tactic(auto, unfolding(crate::specs::Fields::fields_at))]
pub(crate) fn decode_airframe(from: &mut BitReader) -> Result<Airframe, Short>
    ensures { Gives airframe_values (λ e. e.bit) result from.new
        (fields_at airframe_fields from.old) }
{
    let address = from.take(24)?;
    Ok(Airframe { address })
}

/// The data of the intermediate projected intent that stands next.
#[tactic(auto, unfolding(crate::specs::Fields::fields_at))]
pub(crate) fn decode_intermediate(from: &mut BitReader) -> Result<Intermediate, Short>
    ensures { Gives intermediate_values (λ e. e.bit) result from.new
        (fields_at intermediate_fields from.old) }
{
    let distance = from.take(16)?;
    let invalid = from.take(1)? as u8;
    let angle = from.take(12)?;
    let alt = from.take_signed(16)?;
    let eta = from.take(14)?;
    from.take(5)?;
    Ok(Intermediate {
        distance,
        invalid,
        angle,
        alt,
        eta,
    })
}

/// The data of the fixed projected intent that stands next.
#[tactic(auto, unfolding(crate::specs::Fields::fields_at))]
pub(crate) fn decode_fixed(from: &mut BitReader) -> Result<Fixed, Short>
    ensures { Gives fixed_values (λ e. e.bit) result from.new (fields_at fixed_fields from.old) }
{
    let lat = from.take_signed(21)?;
    let lon = from.take_signed(21)?;
    let alt = from.take_signed(16)?;
    let eta = from.take(14)?;
    Ok(Fixed { lat, lon, alt, eta })
}
