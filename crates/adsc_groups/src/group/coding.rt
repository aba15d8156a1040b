//! Encoding and decoding of a report group of any kind.

ghost use Rattle.std.specs.Prelude.{◌≡◌, ◌+◌, ◌*◌, ◌≤◌, ◌↔◌, ◌++◌, length, Ok, Err, OnErr};
ghost use Rattle.bit_terms.specs.Reading.{Gives, Unread};
ghost use Rattle.adsc_groups.specs.Groups.{IsGroupTag, EncodesGroup, GroupWasRead, IsGroupRefusal, group_bits, group_at};
ghost use Rattle.adsc_groups.specs.GroupView.{group_data, group_size};
ghost use Rattle.adsc_groups.specs.declared.group.Group.{Group as GroupValue};
ghost use Rattle.adsc_groups.specs.declared.refusal.GroupRefusal.{GroupRefusal as RefusalValue};

use crate::group::Group;
use crate::kinds::{
    decode_airframe, decode_fixed, decode_flight_id, decode_intermediate, decode_motion,
    decode_route, decode_weather, encode_airframe, encode_fixed, encode_flight_id,
    encode_intermediate, encode_motion, encode_route, encode_weather,
};
use crate::refusal::{GroupRefusal, GroupWhy};
use adsc_bits::{BitReader, BitWriter};

/// The tag of a group: 12 to 17, 22 or 23.
pub fn group_tag(group: &Group) -> u8
    ensures value { result ≡ (group_data group.now).tag }
    ensures form { IsGroupTag result }
{
    match group {
        Group::FlightId(_) => 12,
        Group::Route(_) => 13,
        Group::Earth(_) => 14,
        Group::Air(_) => 15,
        Group::Weather(_) => 16,
        Group::Airframe(_) => 17,
        Group::Intermediate(_) => 22,
        Group::Fixed(_) => 23,
    }
}

/// How many octets the data of a group has, without its tag: 3 to 17.
pub fn group_octets(group: &Group) -> u8
    ensures size { 8 * result ≡ group_size group.now }
    ensures within { result ≤ 17 }
{
    match group {
        Group::FlightId(_) => 6,
        Group::Route(_) => 17,
        Group::Earth(_) => 5,
        Group::Air(_) => 5,
        Group::Weather(_) => 4,
        Group::Airframe(_) => 3,
        Group::Intermediate(_) => 8,
        Group::Fixed(_) => 9,
    }
}

/// Writes the data of a group without its tag, with the padding zero. There is room for it.
///
/// The layout of groups is this project's profile, and so are zeros as padding.
pub fn encode_group(group: &Group, out: &mut BitWriter)
    requires { length out.old + group_size group.now ≤ 2040 }
    ensures bits { out.new ≡ out.old ++ group_bits (group_data group.now) }
    ensures len { length out.new ≡ length out.old + group_size group.now }
    // It is an encoding of the group, so reading it gives the group back.
    ensures encodes { EncodesGroup (group_data group.now) (group_bits (group_data group.now)) }
{
    encode_kind(group, out);
}

// Writes the data by the group's kind.
#[tactic(auto, unfolding(crate::specs::Groups::group_bits))]
fn encode_kind(group: &Group, out: &mut BitWriter)
    requires { length out.old + group_size group.now ≤ 2040 }
    ensures bits { out.new ≡ out.old ++ group_bits (group_data group.now) }
    ensures len { length out.new ≡ length out.old + group_size group.now }
{
    match group {
        Group::FlightId(id) => encode_flight_id(id, out),
        Group::Route(route) => encode_route(route, out),
        Group::Earth(motion) => encode_motion(motion, out),
        Group::Air(motion) => encode_motion(motion, out),
        Group::Weather(weather) => encode_weather(weather, out),
        Group::Airframe(airframe) => encode_airframe(airframe, out),
        Group::Intermediate(intermediate) => encode_intermediate(intermediate, out),
        Group::Fixed(fixed) => encode_fixed(fixed, out),
    }
}

/// The group whose data stands next, behind this tag, whatever its padding. The reader then stands
/// just past it.
///
/// The layout of groups is this project's profile.
///
/// # Errors
///
/// `Tag` exactly where the tag is none of 12 to 17, 22 and 23, at the reader's place. `Short`
/// exactly where a field isn't wholly there, at its first bit; padding is a field too. The reader
/// does not move then.
pub fn decode_group(tag: u8, from: &mut BitReader) -> Result<Group, GroupRefusal>
    // The group is answered exactly where an encoding of it stands next, and this is left behind
    // it.
    ensures read { (group : GroupValue) (left : Unread) → ((result ≡ Ok group) × (from.new ≡ left))
        ↔ GroupWasRead tag (group_data group) from.old left }
    // It is refused exactly at the tag, or at the first field that is cut.
    ensures refused { (refusal : RefusalValue) → (result ≡ Err refusal)
        ↔ IsGroupRefusal tag from.old refusal }
    ensures unmoved { OnErr result (from.new ≡ from.old) }
    // This one joins the crates: all of it as a function of what is left, by which decoders above
    // are proved.
    ensures gives { Gives group_data (λ e. e) result from.new (group_at tag from.old) }
{
    group_from(tag, from)
}

// Reads with a second reader, so that a refusal leaves the first where it stands.
fn group_from(tag: u8, from: &mut BitReader) -> Result<Group, GroupRefusal>
    ensures gives { Gives group_data (λ e. e) result from.new (group_at tag from.old) }
    ensures unmoved { OnErr result (from.new ≡ from.old) }
{
    let mut ahead = from.fork();
    let group = group_ahead(tag, &mut ahead)?;
    *from = ahead;
    Ok(group)
}

#[tactic(auto, unfolding(crate::specs::Groups::group_at))]
fn group_ahead(tag: u8, from: &mut BitReader) -> Result<Group, GroupRefusal>
    ensures { Gives group_data (λ e. e) result from.new (group_at tag from.old) }
{
    match tag {
        12 => Ok(Group::FlightId(decode_flight_id(from)?)),
        13 => Ok(Group::Route(decode_route(from)?)),
        14 => Ok(Group::Earth(decode_motion(from)?)),
        15 => Ok(Group::Air(decode_motion(from)?)),
        16 => Ok(Group::Weather(decode_weather(from)?)),
        17 => Ok(Group::Airframe(decode_airframe(from)?)),
        22 => Ok(Group::Intermediate(decode_intermediate(from)?)),
        23 => Ok(Group::Fixed(decode_fixed(from)?)),
        _ => Err(GroupRefusal {
            bit: from.bit(),
            why: GroupWhy::Tag,
        }),
    }
}
