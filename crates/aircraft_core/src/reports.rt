//! Reports, written as they are made: the basic data, and the groups that are due.
ghost use Rattle.std.specs.Prelude.{◌≡◌, ◌+◌, ◌%◌, ◌≤◌, [], ◌∷◌, ◌++◌, flat_map, length};
ghost use Rattle.adsc_downlink.specs.Items.{report_bits, tagged_group_bits};
ghost use Rattle.adsc_groups.specs.BasicView.{basic_data};
ghost use Rattle.aircraft_core.specs.Reports.{basic_data_of, group_on, groups_from};
ghost use Rattle.aircraft_core.specs.Sending.{payload_bits};

use crate::groups::group;
use crate::setup::Setup;
use adsc_bits::BitWriter;
use adsc_groups::{Basic, encode_basic, encode_group};
use flight_samples::Sample;

/// The tag of the first group that a request may ask for, the flight identification (RTCA DO-258A /
/// EUROCAE ED-100A).
const FIRST_GROUP: u8 = 12;

/// Writes the report of a tag on a sample behind what was written before, with those of the groups
/// 12 to 17 that are due: they stand by rising tag. There is room for it.
#[tactic(auto, unfolding(adsc_downlink::specs::Items::report_bits))]
pub(crate) fn write_report(
    out: &mut BitWriter,
    setup: &Setup,
    sample: &Sample,
    tag: u8,
    due: &[bool; 6],
)
    requires room { length out.old + 456 ≤ payload_bits }
    requires whole { length out.old % 8 ≡ 0 }
    ensures bits { out.new ≡ out.old ++ report_bits (record {
      tag = tag;
      basic = basic_data_of sample.now;
      groups = groups_from setup.now sample.now 12 due.now;
    }) }
    ensures size { length out.new ≤ length out.old + 456 }
    ensures whole { length out.new % 8 ≡ 0 }
{
    out.put(tag as u32, 8);
    encode_basic(&basic_of(sample), out);
    write_groups(out, setup, sample, due);
}

/// Writes the groups that are due, each behind its tag. There is room for all six.
fn write_groups(out: &mut BitWriter, setup: &Setup, sample: &Sample, due: &[bool; 6])
    requires room { length out.old + 368 ≤ payload_bits }
    requires whole { length out.old % 8 ≡ 0 }
    ensures bits { out.new ≡ out.old
        ++ flat_map tagged_group_bits (groups_from setup.now sample.now 12 due.now) }
    ensures size { length out.new ≤ length out.old + 368 }
    ensures whole { length out.new % 8 ≡ 0 }
{
    for (place, is_due) in due.iter().enumerate() {
        write_due_group(out, setup, sample, FIRST_GROUP + place as u8, *is_due);
    }
}

/// Writes the group of a tag from 12 to 17 behind its tag, where it is due. There is room for it.
fn write_due_group(out: &mut BitWriter, setup: &Setup, sample: &Sample, tag: u8, is_due: bool)
    requires low { 12 ≤ tag }
    requires high { tag ≤ 17 }
    requires room { length out.old
        + length (flat_map tagged_group_bits (groups_from setup.now sample.now tag (is_due ∷ []))) ≤ payload_bits }
    requires whole { length out.old % 8 ≡ 0 }
    ensures bits { out.new ≡ out.old
        ++ flat_map tagged_group_bits (groups_from setup.now sample.now tag (is_due ∷ [])) }
    ensures whole { length out.new % 8 ≡ 0 }
{
    if is_due {
        write_group(out, setup, sample, tag);
    }
}

/// Writes the group of a tag from 12 to 17 behind its tag. There is room for it.
#[tactic(auto, unfolding(adsc_downlink::specs::Items::tagged_group_bits))]
fn write_group(out: &mut BitWriter, setup: &Setup, sample: &Sample, tag: u8)
    requires low { 12 ≤ tag }
    requires high { tag ≤ 17 }
    requires room { length out.old
        + length (tagged_group_bits (group_on setup.now sample.now tag)) ≤ payload_bits }
    requires whole { length out.old % 8 ≡ 0 }
    ensures bits { out.new ≡ out.old
        ++ tagged_group_bits (group_on setup.now sample.now tag) }
    ensures whole { length out.new % 8 ≡ 0 }
{
    let group = group(setup, sample, tag);
    out.put(tag as u32, 8);
    encode_group(&group, out);
}

/// The basic data of a report on this sample.
fn basic_of(sample: &Sample) -> Basic
    ensures { basic_data result ≡ basic_data_of sample.now }
{
    Basic {
        lat: sample.lat,
        lon: sample.lon,
        alt: sample.alt,
        sec: sample.sec as u32,
        tcas: sample.tcas as u8,
        accuracy: sample.acc as u8,
        redundancy: sample.red as u8,
    }
}
