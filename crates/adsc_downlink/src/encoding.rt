//! Writing the items of a downlink.

ghost use Rattle.std.specs.Prelude.{◌≡◌, ◌+◌, ◌*◌, ◌%◌, ◌≤◌, ◌++◌, length, flat_map, map, IsTrue, if◌then◌else◌};
ghost use Rattle.bit_terms.specs.Octets.{octets_bits};
ghost use Rattle.adsc_bits.specs.Packing.{octets_of};
ghost use Rattle.arrayvec.specs.ArrayVec.{array_vec_len};
ghost use Rattle.adsc_groups.specs.GroupView.{group_data};
ghost use Rattle.contract_rules.specs.Reasons.{names_octet as names_octet_of};
ghost use Rattle.adsc_downlink.specs.Codes.{is_reason, is_place_of};
ghost use Rattle.adsc_downlink.specs.Encodings.{EncodesEach, EncodesReport, EncodesItem, EncodesDownlink};
ghost use Rattle.adsc_downlink.specs.Items.{ItemData, tagged_group_bits, report_bits, item_bits, downlink_bits};
ghost use Rattle.adsc_downlink.specs.ItemView.{report_group_data, report_data, item_data, items_data};

use crate::item::{Item, Nack};
use crate::items::Items;
use crate::report::{Report, ReportGroup};
use adsc_bits::BitWriter;
use adsc_groups::{Group, encode_basic, encode_group, group_octets, group_tag};
use arrayvec::ArrayVec;

/// How many octets the items have as a payload. An item has at most 155.
#[tactic(auto, unfolding(crate::specs::Items::downlink_bits))]
pub fn downlink_size(items: &Items) -> u32
    ensures exact { 8 * result ≡ length (downlink_bits (items_data items.now)) }
    ensures within { result ≤ 155 * array_vec_len items.now.list }
{
    items_size(items.list.as_slice())
}

/// The payload that carries the items: their one encoding whose padding is zeros. It has at most
/// 255 octets, as `downlink_size` tells.
///
/// The items follow RTCA DO-258A / EUROCAE ED-100A; layout, limit and padding are this project's
/// profile.
#[tactic(auto, unfolding(crate::specs::Items::downlink_bits))]
pub fn encode_downlink(items: &Items) -> ArrayVec<u8, 255>
    requires { length (downlink_bits (items_data items.now)) ≤ 2040 }
    ensures bits { octets_bits result.items ≡ downlink_bits (items_data items.now) }
    ensures octets { result.items ≡ octets_of (downlink_bits (items_data items.now)) }
    // It is an encoding of the items, so reading it gives the items back.
    ensures encodes { EncodesDownlink (items_data items.now) (octets_bits result.items) }
{
    let mut out = BitWriter::new();
    encode_items(items.list.as_slice(), &mut out);
    out.finish()
}

/// Writes one item behind what was written before, with its padding zero. There is room for it.
/// Items that are written one behind the other are a payload as `encode_downlink` gives it, and no
/// list of them is needed.
///
/// The items follow RTCA DO-258A / EUROCAE ED-100A; the layout, with zeros as padding, is this
/// project's profile.
pub fn encode_item(item: &Item, out: &mut BitWriter)
    requires { length out.old + length (item_bits (item_data item.now)) ≤ 2040 }
    ensures bits { out.new ≡ out.old ++ item_bits (item_data item.now) }
    // An item is whole octets, so what is written can be finished behind it.
    ensures whole { length (item_bits (item_data item.now)) % 8 ≡ 0 }
    ensures encodes { EncodesItem (item_data item.now) (item_bits (item_data item.now)) }
{
    encode_kind(item, out);
}

// ---- sizes

fn items_size(items: &[Item]) -> u32
    requires { length items.now ≤ 8 }
    ensures exact { 8 * result ≡ length (flat_map item_bits (map item_data items.now)) }
    ensures within { result ≤ 155 * length items.now }
{
    let mut size = 0;
    for item in items {
        size += item_size(item);
    }
    size
}

#[tactic(auto, unfolding(crate::specs::Items::item_bits))]
fn item_size(item: &Item) -> u32
    ensures exact { 8 * result ≡ length (item_bits (item_data item.now)) }
    ensures within { result ≤ 155 }
{
    match item {
        Item::Ack { n: _ } => 2,
        Item::Nack(nack) => nack_size(nack),
        Item::Noncompliance { n: _ } => 5,
        Item::EmergencyOff { n: _ } => 2,
        Item::Report(report) => 11 + groups_size(report.groups.as_slice()),
    }
}

fn nack_size(nack: &Nack) -> u32
    ensures { result ≡ (if names_octet_of nack.now.reason then 4 else 3) }
{
    if names_octet(nack.reason) { 4 } else { 3 }
}

fn groups_size(groups: &[ReportGroup]) -> u32
    requires { length groups.now ≤ 8 }
    ensures exact { 8 * result
        ≡ length (flat_map tagged_group_bits (map report_group_data groups.now)) }
    ensures within { result ≤ 144 }
{
    let mut size = 0;
    for group in groups {
        size += tagged_group_size(&group.0);
    }
    size
}

fn tagged_group_size(group: &Group) -> u32
    ensures exact { 8 * result ≡ length (tagged_group_bits (group_data group.now)) }
    ensures within { result ≤ 18 }
{
    1 + group_octets(group) as u32
}

/// Whether the place of the faulty octet stands behind this reason.
pub(crate) fn names_octet(reason: u8) -> bool
    ensures { result ≡ names_octet_of reason }
{
    reason == 1 || reason == 2 || reason == 7
}

// ---- encodings

fn encode_items(items: &[Item], out: &mut BitWriter)
    requires { length out.old + length (flat_map item_bits (map item_data items.now)) ≤ 2040 }
    ensures bits { out.new ≡ out.old ++ flat_map item_bits (map item_data items.now) }
    ensures whole { length (flat_map item_bits (map item_data items.now)) % 8 ≡ 0 }
    ensures encodes { EncodesEach EncodesItem (map item_data items.now)
        (flat_map item_bits (map item_data items.now)) }
{
    for item in items {
        encode_item(item, out);
    }
}

// Writes an item by its kind.
#[tactic(auto, unfolding(crate::specs::Items::item_bits))]
fn encode_kind(item: &Item, out: &mut BitWriter)
    requires { length out.old + length (item_bits (item_data item.now)) ≤ 2040 }
    ensures bits { out.new ≡ out.old ++ item_bits (item_data item.now) }
    ensures encodes { EncodesItem (item_data item.now) (item_bits (item_data item.now)) }
{
    match item {
        Item::Ack { n } => put_octets(&[3, *n], out),
        Item::Nack(nack) => encode_nack(nack.n, nack.reason, nack.octet, out),
        Item::Noncompliance { n } => put_octets(&[5, *n, 0x01, 0x15, 0x40], out),
        Item::EmergencyOff { n } => put_octets(&[6, *n], out),
        Item::Report(report) => encode_report(report, out),
    }
}

#[tactic(auto, unfolding(crate::specs::Items::item_bits))]
fn encode_nack(n: u8, reason: u8, octet: u8, out: &mut BitWriter)
    requires known { IsTrue (is_reason reason) }
    requires due { IsTrue (is_place_of reason octet) }
    requires room { length out.old + length (item_bits (ItemData.nack n reason octet)) ≤ 2040 }
    ensures bits { out.new ≡ out.old ++ item_bits (ItemData.nack n reason octet) }
    ensures encodes { EncodesItem (ItemData.nack n reason octet)
        (item_bits (ItemData.nack n reason octet)) }
{
    if names_octet(reason) {
        put_octets(&[4, n, reason, octet], out);
    } else {
        put_octets(&[4, n, reason], out);
    }
}

#[tactic(auto, unfolding(crate::specs::Items::report_bits))]
fn encode_report(report: &Report, out: &mut BitWriter)
    requires { length out.old + length (report_bits (report_data report.now)) ≤ 2040 }
    ensures bits { out.new ≡ out.old ++ report_bits (report_data report.now) }
    ensures encodes { EncodesReport (report_data report.now)
        (report_bits (report_data report.now)) }
{
    out.put(report.tag as u32, 8);
    encode_basic(&report.basic, out);
    encode_groups(report.groups.as_slice(), out);
}

fn encode_groups(groups: &[ReportGroup], out: &mut BitWriter)
    requires { length out.old
        + length (flat_map tagged_group_bits (map report_group_data groups.now)) ≤ 2040 }
    ensures { out.new ≡ out.old ++ flat_map tagged_group_bits (map report_group_data groups.now) }
{
    for group in groups {
        encode_tagged_group(&group.0, out);
    }
}

#[tactic(auto, unfolding(crate::specs::Items::tagged_group_bits))]
fn encode_tagged_group(group: &Group, out: &mut BitWriter)
    requires { length out.old + length (tagged_group_bits (group_data group.now)) ≤ 2040 }
    ensures { out.new ≡ out.old ++ tagged_group_bits (group_data group.now) }
{
    out.put(group_tag(group) as u32, 8);
    encode_group(group, out);
}

fn put_octets(octets: &[u8], out: &mut BitWriter)
    requires { length out.old + length (octets_bits octets.now) ≤ 2040 }
    ensures { out.new ≡ out.old ++ octets_bits octets.now }
{
    for octet in octets {
        out.put(*octet as u32, 8);
    }
}
