//! The lines of downlink items.
ghost use Rattle.std.specs.Prelude.{◌≡◌, ◌+◌, ◌*◌, ◌≤◌, ◌++◌, length, codes, map, flat_map};
ghost use Rattle.adsc_groups.specs.BasicView.{basic_data};
ghost use Rattle.adsc_groups.specs.Basic.{basic_values};
ghost use Rattle.adsc_downlink.specs.ItemView.{item_data, report_data, report_group_data};
ghost use Rattle.adsc_io.specs.Lines.{ended};
ghost use Rattle.output_fields.specs.Fields.{number_field};
ghost use Rattle.shown_lines.specs.Fields.{value_fields};
ghost use Rattle.shown_lines.specs.Texts.{place_field, group_text, report_text, item_text};
ghost use Rattle.shown_lines.specs.declared.room.TheConstants.{GROUP_ROOM, LINE_ROOM};

use crate::groups::append_group;
use crate::room::{ITEM_ROOM, Room};
use adsc_downlink::{Item, Nack, Report, ReportGroup};
use adsc_groups::Basic;

/// Appends the lines of items, one item after the other.
pub(crate) fn append_items(out: &mut Room, items: &[Item])
    requires { length out.old + ITEM_ROOM * length items.now ≤ LINE_ROOM }
    ensures text { out.new ≡ out.old ++ flat_map item_text (map item_data items.now) }
{
    for item in items {
        append_item(out, item);
    }
}

/// Appends the lines of an item.
#[tactic(auto, unfolding(crate::specs::Texts::item_text))]
fn append_item(out: &mut Room, item: &Item)
    requires { length out.old + ITEM_ROOM ≤ LINE_ROOM }
    ensures text { out.new ≡ out.old ++ item_text (item_data item.now) }
    ensures size { length out.new ≤ length out.old + ITEM_ROOM }
{
    match item {
        Item::Ack { n } => out.append_numbered(b"ack", *n as u32),
        Item::Nack(nack) => append_nack(out, nack),
        Item::Noncompliance { n } => out.append_numbered(b"noncompliance", *n as u32),
        Item::EmergencyOff { n } => out.append_numbered(b"emergency-off", *n as u32),
        Item::Report(report) => append_report(out, report),
    }
}

/// Appends the line of a negative acknowledgement.
fn append_nack(out: &mut Room, nack: &Nack)
    requires { length out.old + 38 ≤ LINE_ROOM }
    ensures text { out.new ≡ out.old ++ ended (codes "nack" ++ number_field nack.now.n
        ++ number_field nack.now.reason ++ place_field nack.now.reason nack.now.octet) }
    ensures size { length out.new ≤ length out.old + 38 }
{
    out.append(b"nack");
    out.append_number(nack.n as u32);
    out.append_number(nack.reason as u32);
    append_place(out, nack.reason, nack.octet);
    out.append(b"\n");
}

/// Appends the place of the faulty octet, where the reason has one: reasons 1, 2 and 7.
fn append_place(out: &mut Room, reason: u8, place: u8)
    requires { length out.old + 11 ≤ LINE_ROOM }
    ensures text { out.new ≡ out.old ++ place_field reason place }
    ensures size { length out.new ≤ length out.old + 11 }
{
    match reason {
        1 | 2 | 7 => out.append_number(place as u32),
        _ => {}
    }
}

/// Appends the line of a report and those of its groups.
#[tactic(auto, unfolding(crate::specs::Texts::report_text))]
fn append_report(out: &mut Room, report: &Report)
    requires { length out.old + ITEM_ROOM ≤ LINE_ROOM }
    ensures text { out.new ≡ out.old ++ report_text (report_data report.now) }
    ensures size { length out.new ≤ length out.old + ITEM_ROOM }
{
    out.append(b"report");
    out.append_number(report.tag as u32);
    append_basic(out, &report.basic);
    out.append(b"\n");
    append_groups(out, report.groups.as_slice());
}

/// Appends the basic data of a report.
fn append_basic(out: &mut Room, basic: &Basic)
    requires { length out.old + 84 ≤ LINE_ROOM }
    ensures text { out.new ≡ out.old ++ value_fields (basic_values (basic_data basic.now)) }
    ensures size { length out.new ≤ length out.old + 84 }
{
    out.append_values(&[
        basic.lat,
        basic.lon,
        basic.alt,
        basic.sec as i32,
        basic.tcas as i32,
        basic.accuracy as i32,
        basic.redundancy as i32,
    ]);
}

/// Appends the lines of groups, one group after the other.
fn append_groups(out: &mut Room, groups: &[ReportGroup])
    requires { length out.old + GROUP_ROOM * length groups.now ≤ LINE_ROOM }
    ensures text { out.new ≡ out.old ++ flat_map group_text (map report_group_data groups.now) }
    ensures size { length out.new ≤ length out.old + GROUP_ROOM * length groups.now }
{
    for group in groups {
        append_group(out, &group.0);
    }
}
