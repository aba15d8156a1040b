//! Items of a downlink, written with the data that the aircraft puts into them.
ghost use Rattle.std.specs.Prelude.{◌≡◌, ◌+◌, ◌%◌, ◌≤◌, ◌++◌, length};
ghost use Rattle.adsc_downlink.specs.ItemView.{item_data};
ghost use Rattle.adsc_downlink.specs.Items.{item_bits};
ghost use Rattle.contract_table.specs.Dues.{rules_item};
ghost use Rattle.aircraft_core.specs.Reports.{item_on};
ghost use Rattle.aircraft_core.specs.Sending.{IsSendable, most_bits, payload_bits};

use crate::reports::write_report;
use crate::setup::Setup;
use adsc_bits::BitWriter;
use adsc_downlink::{Item, Nack, encode_item};
use contract_table::DueItem;
use flight_samples::Sample;

/// Writes an item that is due behind what was written before: a report is on this sample, and is
/// written as it is made. There is room for it.
pub(crate) fn write_item(out: &mut BitWriter, setup: &Setup, sample: &Sample, due: &DueItem)
    requires sendable { IsSendable (rules_item due.now) }
    requires room { length out.old + most_bits (rules_item due.now) ≤ payload_bits }
    requires whole { length out.old % 8 ≡ 0 }
    ensures bits { out.new
        ≡ out.old ++ item_bits (item_on setup.now sample.now (rules_item due.now)) }
    ensures size { length out.new ≤ length out.old + most_bits (rules_item due.now) }
    ensures whole { length out.new % 8 ≡ 0 }
{
    match due {
        DueItem::Ack { n } => write_short(out, &Item::Ack { n: *n }),
        DueItem::Nack { n, reason, octet } => write_short(
            out,
            &Item::Nack(Nack {
                n: *n,
                reason: *reason,
                octet: *octet,
            }),
        ),
        DueItem::Noncompliance { n } => write_short(out, &Item::Noncompliance { n: *n }),
        DueItem::EmergencyOff { n } => write_short(out, &Item::EmergencyOff { n: *n }),
        DueItem::Report { tag, groups } => write_report(out, setup, sample, *tag, groups),
    }
}

/// Writes an item of at most five octets. There is room for it.
fn write_short(out: &mut BitWriter, item: &Item)
    requires short { length (item_bits (item_data item.now)) ≤ 40 }
    requires room { length out.old + 40 ≤ payload_bits }
    requires whole { length out.old % 8 ≡ 0 }
    ensures bits { out.new ≡ out.old ++ item_bits (item_data item.now) }
    ensures size { length out.new ≤ length out.old + 40 }
    ensures whole { length out.new % 8 ≡ 0 }
{
    encode_item(item, out);
}
