//! A downlink: the items that are due on a link at one entry, written one behind the other and sent
//! in one text.
ghost use Rattle.std.specs.Prelude.{◌≡◌, ◌+◌, ◌%◌, ◌≤◌, ◌<◌, ◌++◌, List, All, length};
ghost use Rattle.adsc_io.specs.Lines.{IsUnbroken, ended_lines};
ghost use Rattle.contract_rules.specs.Due.{Item as RulesItem};
ghost use Rattle.flight_samples.specs.declared.sample.Sample.{Sample as FlightSample};
ghost use Rattle.aircraft_core.specs.Downlinks.{texts_of_items};
ghost use Rattle.aircraft_core.specs.Sending.{AreSendable, items_in, item_bits_on, most_bits_of, payload_bits};

use crate::items::write_item;
use crate::outbox::Outbox;
use crate::setup::Setup;
use adsc_bits::BitWriter;
use contract_table::Due;
use flight_samples::Sample;

/// Writes the items that are due behind those that were written before, with the data of this
/// sample. There is room for them.
pub(crate) fn write_items(out: &mut BitWriter, setup: &Setup, sample: &Sample, dues: &[Due])
    requires sendable { AreSendable (items_in dues.now) }
    requires room { length out.old + most_bits_of (items_in dues.now) ≤ payload_bits }
    requires whole { length out.old % 8 ≡ 0 }
    ensures bits { out.new ≡ out.old ++ item_bits_on setup.now sample.now (items_in dues.now) }
    ensures size { length out.new ≤ length out.old + most_bits_of (items_in dues.now) }
    ensures whole { length out.new % 8 ≡ 0 }
{
    for due in dues {
        write_item(out, setup, sample, &due.item);
    }
}

/// Sends the items that were written on a link, in one text, and nothing where there are none.
/// There is room for it.
#[inline(always)]
pub(crate) fn send(outbox: &mut Outbox, setup: &Setup, link: usize, out: BitWriter)
    requires link { link < length setup.now.addresses }
    requires whole { length out % 8 ≡ 0 }
    requires room { 534 ≤ outbox.old.room }
    ensures sent { (sample : FlightSample) (items : List RulesItem) → out
        ≡ item_bits_on setup.now sample items
        → outbox.new.sent ≡ outbox.old.sent ++ ended_lines (texts_of_items setup.now link sample items) }
    ensures unbroken { (sample : FlightSample) (items : List RulesItem) → out
        ≡ item_bits_on setup.now sample items
        → All IsUnbroken (texts_of_items setup.now link sample items) }
    ensures room { outbox.old.room ≤ outbox.new.room + 534 }
{
    if out.bit() == 0 {
        return;
    }
    let payload = out.finish();
    outbox.send(
        &setup.address(link),
        &setup.registration(),
        payload.as_slice(),
    );
}
