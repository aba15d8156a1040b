//! Reading the items of a downlink.

ghost use Rattle.std.specs.Prelude.{◌≡◌, ◌+◌, ◌<◌, ◌≤◌, [], map, length, take, nat_lt, if◌then◌else◌, IsTrue, Ok, Err, IfOk, IfErr, OnOk, MatchResult};
ghost use Rattle.bit_terms.specs.Octets.{octets_bits, number_spelled};
ghost use Rattle.bit_terms.specs.Reading.{Gives, all_unread};
ghost use Rattle.adsc_groups.specs.BasicView.{basic_data};
ghost use Rattle.adsc_groups.specs.Groups.{is_group_tag as is_group_tag_of};
ghost use Rattle.adsc_groups.specs.GroupView.{group_data};
ghost use Rattle.arrayvec.specs.ArrayVec.{array_vec_len};
ghost use Rattle.adsc_downlink.specs.Codes.{is_report_tag as is_report_tag_of, is_item_tag as is_item_tag_of, is_reason as is_reason_of, only};
ghost use Rattle.adsc_downlink.specs.Encodings.{EncodesDownlink};
ghost use Rattle.adsc_downlink.specs.Faults.{IsFirstDownlinkFault};
ghost use Rattle.adsc_downlink.specs.ItemView.{report_group_data, report_data, item_data, items_data};
ghost use Rattle.adsc_downlink.specs.Items.{ItemData};
ghost use Rattle.adsc_downlink.specs.Reading.{octet_at, octet_where, begins, basic_at, tagged_group_at, groups_at, report_at, nack_at, number_at, body_at, item_at, ninth_at, downlink_at};
ghost use Rattle.adsc_downlink.specs.declared.items.Items.{Items as ItemsValue};
ghost use Rattle.adsc_downlink.specs.declared.refusal.DownRefusal.{DownRefusal as RefusalValue};

use crate::encoding::names_octet;
use crate::item::{Item, Nack};
use crate::items::Items;
use crate::refusal::{DownRefusal, DownWhy};
use crate::report::{Report, ReportGroup};
use adsc_bits::BitReader;
use adsc_groups::{Basic, Group, decode_basic, decode_group};
use arrayvec::ArrayVec;

/// The items whose encoding the payload is, whatever its padding. The payload has at most 255
/// octets.
///
/// The items follow RTCA DO-258A / EUROCAE ED-100A; the layout, the limits and the first fault are
/// this project's profile.
///
/// # Errors
///
/// The first fault from the left. `Short`: a field isn't wholly there, at its first bit; an empty
/// payload is short at bit 0. `Tag`: where an item must or may begin, the octet is neither an
/// item's tag nor, within a report, a group's. `Value`: a reason is 0 or above 13, or a fixed octet
/// of a noncompliance is another. `Many`: a ninth item, or a ninth group of a report, at its tag.
pub fn decode_downlink(payload: &[u8]) -> Result<Items, DownRefusal>
    requires { length payload.now ≤ 255 }
    // What is read is encoded so, and what is encoded so is read.
    ensures found { IfOk result (λ items.
        EncodesDownlink (items_data items) (octets_bits payload.now)) }
    ensures only { (items : ItemsValue) →
        EncodesDownlink (items_data items) (octets_bits payload.now) → result ≡ Ok items }
    // What is refused has this first fault, and what has a first fault is refused with it.
    ensures fault { IfErr result (λ r. IsFirstDownlinkFault (octets_bits payload.now) r.bit r.why) }
    ensures refused { (r : RefusalValue) →
        IsFirstDownlinkFault (octets_bits payload.now) r.bit r.why → result ≡ Err r }
{
    let mut list = ArrayVec::new();
    decode_items(payload, &mut list)?;
    Ok(Items { list })
}

/// Reads a payload as [`decode_downlink`] does, into a list that is lent: whoever reads many
/// payloads needs no list for each. What the list held before is dropped.
///
/// # Errors
///
/// Those of `decode_downlink`. The list then holds nothing that can be relied on.
pub fn decode_items(payload: &[u8], list: &mut ArrayVec<Item, 8>) -> Result<(), DownRefusal>
    requires { length payload.now ≤ 255 }
    ensures found { OnOk result
        (EncodesDownlink (map item_data list.new.items) (octets_bits payload.now)) }
    ensures fault { IfErr result (λ r. IsFirstDownlinkFault (octets_bits payload.now) r.bit r.why) }
    ensures refused { (r : RefusalValue) →
        IsFirstDownlinkFault (octets_bits payload.now) r.bit r.why → result ≡ Err r }
{
    list.clear();
    read_items(payload, list)
}

// Items up to the end of the payload.
fn read_items(payload: &[u8], list: &mut ArrayVec<Item, 8>) -> Result<(), DownRefusal>
    requires few { length payload.now ≤ 255 }
    requires empty { list.old.items ≡ [] }
    ensures exact { MatchResult result
        (λ _. downlink_at (all_unread payload.now) ≡ Ok (map item_data list.new.items))
        (λ e. downlink_at (all_unread payload.now) ≡ Err e) }
{
    let mut from = BitReader::new(payload);
    list.push(decode_item(&mut from)?);
    while !from.at_end() {
        if list.len() == 8 {
            return Err(ninth_item(&from));
        }
        list.push(decode_item(&mut from)?);
    }
    Ok(())
}

#[tactic(auto, unfolding(crate::specs::Reading::item_at))]
fn decode_item(from: &mut BitReader) -> Result<Item, DownRefusal>
    ensures { Gives item_data (λ e. e) result from.new (item_at from.old) }
{
    let place = from.bit();
    let tag = octet(from)?;
    decode_body(place, tag, from)
}

// What stands behind an item's tag, which began at `place`.
#[tactic(auto, unfolding(crate::specs::Reading::body_at))]
fn decode_body(place: u32, tag: u8, from: &mut BitReader) -> Result<Item, DownRefusal>
    ensures { Gives item_data (λ e. e) result from.new (body_at place tag from.old) }
{
    match tag {
        3 => Ok(Item::Ack {
            n: decode_number(from)?,
        }),
        4 => Ok(Item::Nack(decode_nack(from)?)),
        5 => Ok(Item::Noncompliance {
            n: decode_noncompliance(from)?,
        }),
        6 => Ok(Item::EmergencyOff {
            n: decode_number(from)?,
        }),
        tag if is_report_tag(tag) => Ok(Item::Report(decode_report(tag, from)?)),
        _ => Err(DownRefusal {
            bit: place,
            why: DownWhy::Tag,
        }),
    }
}

// A reason, and behind some reasons the place of the faulty octet.
#[tactic(auto, unfolding(crate::specs::Reading::nack_at, crate::specs::Reading::octets_where))]
fn decode_nack(from: &mut BitReader) -> Result<Nack, DownRefusal>
    ensures { Gives (λ k. ItemData.nack k.n k.reason k.octet) (λ e. e) result from.new
        (nack_at from.old) }
{
    let n = octet(from)?;
    let reason = decode_reason(from)?;
    if names_octet(reason) {
        let octet = octet(from)?;
        return Ok(Nack { n, reason, octet });
    }
    Ok(Nack {
        n,
        reason,
        octet: 0,
    })
}

// The number of an acknowledgement, or of the end of emergency mode.
#[tactic(auto, unfolding(crate::specs::Reading::number_at, crate::specs::Reading::octets_where))]
fn decode_number(from: &mut BitReader) -> Result<u8, DownRefusal>
    ensures ack { Gives (λ n. n) (λ e. e) result from.new (number_at 3 from.old) }
    ensures emergency_off { Gives (λ n. n) (λ e. e) result from.new (number_at 6 from.old) }
{
    octet(from)
}

// A number, and the fixed octets behind it.
#[tactic(auto, unfolding(crate::specs::Reading::number_at, crate::specs::Reading::octets_where))]
fn decode_noncompliance(from: &mut BitReader) -> Result<u8, DownRefusal>
    ensures { Gives (λ n. n) (λ e. e) result from.new (number_at 5 from.old) }
{
    let n = octet(from)?;
    fixed(0x01, from)?;
    fixed(0x15, from)?;
    fixed(0x40, from)?;
    Ok(n)
}

#[tactic(auto, unfolding(crate::specs::Reading::report_at))]
fn decode_report(tag: u8, from: &mut BitReader) -> Result<Report, DownRefusal>
    requires { IsTrue (is_report_tag_of tag) }
    ensures { Gives report_data (λ e. e) result from.new (report_at tag from.old) }
{
    let basic = decode_report_basic(from)?;
    let groups = decode_groups(from)?;
    Ok(Report { tag, basic, groups })
}

#[tactic(auto, unfolding(crate::specs::Reading::basic_at))]
fn decode_report_basic(from: &mut BitReader) -> Result<Basic, DownRefusal>
    ensures { Gives basic_data (λ e. e) result from.new (basic_at from.old) }
{
    Ok(decode_basic(from)?)
}

// Groups while a group's tag stands next.
fn decode_groups(from: &mut BitReader) -> Result<ArrayVec<ReportGroup, 8>, DownRefusal>
    ensures gives { Gives (λ groups. map report_group_data groups.items) (λ e. e) result from.new
        (groups_at 8 from.old) }
    ensures few { IfOk result (λ groups. array_vec_len groups ≤ 8) }
{
    let mut groups = ArrayVec::new();
    while begins_group(from) {
        if groups.len() == 8 {
            return Err(DownRefusal {
                bit: from.bit(),
                why: DownWhy::Many,
            });
        }
        groups.push(ReportGroup(decode_tagged_group(from)?));
    }
    Ok(groups)
}

#[tactic(auto, unfolding(crate::specs::Reading::tagged_group_at))]
fn decode_tagged_group(from: &mut BitReader) -> Result<Group, DownRefusal>
    ensures { Gives group_data (λ e. e) result from.new (tagged_group_at from.old) }
{
    let tag = octet(from)?;
    Ok(decode_group(tag, from)?)
}

// ---- octets

fn octet(from: &mut BitReader) -> Result<u8, DownRefusal>
    ensures { Gives (λ v. v) (λ e. e) result from.new (octet_at from.old) }
{
    Ok(from.take(8)? as u8)
}

fn decode_reason(from: &mut BitReader) -> Result<u8, DownRefusal>
    ensures gives { Gives (λ v. v) (λ e. e) result from.new (octet_where is_reason_of from.old) }
    ensures known { IfOk result (λ reason. IsTrue (is_reason_of reason)) }
{
    let place = from.bit();
    let reason = octet(from)?;
    if is_reason(reason) {
        Ok(reason)
    } else {
        Err(DownRefusal {
            bit: place,
            why: DownWhy::Value,
        })
    }
}

fn fixed(due: u8, from: &mut BitReader) -> Result<u8, DownRefusal>
    ensures { Gives (λ v. v) (λ e. e) result from.new (octet_where (only due) from.old) }
{
    let place = from.bit();
    let octet = octet(from)?;
    if octet == due {
        Ok(octet)
    } else {
        Err(DownRefusal {
            bit: place,
            why: DownWhy::Value,
        })
    }
}

/// Whether the octet of a group's tag stands next.
fn begins_group(from: &BitReader) -> bool
    ensures { result ≡ begins is_group_tag_of from.now }
{
    match next_octet(from) {
        Some(tag) => is_group_tag(tag),
        None => false,
    }
}

/// What is wrong where a ninth item would begin.
fn ninth_item(from: &BitReader) -> DownRefusal
    ensures { result ≡ ninth_at from.now }
{
    let why = match next_octet(from) {
        Some(tag) if is_item_tag(tag) => DownWhy::Many,
        Some(_) => DownWhy::Tag,
        None => DownWhy::Short,
    };
    DownRefusal {
        bit: from.bit(),
        why,
    }
}

/// The octet that stands next, which is not taken.
fn next_octet(from: &BitReader) -> Option<u8>
    ensures { result ≡ (if nat_lt (length from.now.left) 8 then None
        else Some (number_spelled (take 8 from.now.left))) }
{
    let mut ahead = from.fork();
    match ahead.take(8) {
        Ok(octet) => Some(octet as u8),
        Err(_) => None,
    }
}

// ---- codes

fn is_reason(reason: u8) -> bool
    ensures { result ≡ is_reason_of reason }
{
    1 <= reason && reason <= 13
}

fn is_group_tag(tag: u8) -> bool
    ensures { result ≡ is_group_tag_of tag }
{
    12 <= tag && tag <= 17 || tag == 22 || tag == 23
}

fn is_report_tag(tag: u8) -> bool
    ensures { result ≡ is_report_tag_of tag }
{
    tag == 7 || tag == 9 || tag == 10 || tag == 18 || tag == 19 || tag == 20
}

fn is_item_tag(tag: u8) -> bool
    ensures { result ≡ is_item_tag_of tag }
{
    tag == 3 || tag == 4 || tag == 5 || tag == 6 || is_report_tag(tag)
}
