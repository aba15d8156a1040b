//! What an act of the flight makes due, sent on each link.
ghost use Rattle.std.specs.Prelude.{◌≡◌, ℕ, ◌+◌, ◌≤◌, ◌<◌, ◌++◌, All, length};
ghost use Rattle.std.specs.List.{AllByRecursion};
ghost use Rattle.adsc_io.specs.Lines.{IsUnbroken, ended_lines};
ghost use Rattle.aircraft_core.specs.Downlinks.{texts_of_items};
ghost use Rattle.aircraft_core.specs.Outboxes.{outbox_of, HasRoom};
ghost use Rattle.aircraft_core.specs.Sending.{AreSendable, RisesFrom, count_at_front, items_in, items_of_link, most_bits_of, payload_bits, rules_dues};

use crate::downlink::{send, write_items};
use crate::outbox::Outbox;
use crate::setup::Setup;
use adsc_bits::BitWriter;
use contract_table::Due;
use flight_samples::Sample;

/// Sends what is due, by rising link: the items of each link in one text. There is room for it in
/// every outbox.
pub(crate) fn send_by_link(setup: &Setup, sample: &Sample, outboxes: &mut [Outbox], dues: &[Due])
    requires each_link { length outboxes.old ≡ length setup.now.addresses }
    requires links { AllByRecursion (λ due. due.0 < length setup.now.addresses)
        (rules_dues dues.now) }
    requires rising { RisesFrom 0 (rules_dues dues.now) }
    requires sendable { (link : ℕ) → link < length setup.now.addresses
        → AreSendable (items_of_link link dues.now) }
    requires fits { (link : ℕ) → link < length setup.now.addresses
        → most_bits_of (items_of_link link dues.now) ≤ payload_bits }
    requires room { All HasRoom outboxes.old }
    ensures each_link { length outboxes.new ≡ length outboxes.old }
    ensures sent { (link : ℕ) → link < length setup.now.addresses
        → (outbox_of outboxes.new link).sent
        ≡ (outbox_of outboxes.old link).sent ++ ended_lines (texts_of_items setup.now link sample.now (items_of_link link dues.now)) }
    ensures unbroken { (link : ℕ) → link < length setup.now.addresses
        → All IsUnbroken (texts_of_items setup.now link sample.now (items_of_link link dues.now)) }
    ensures room { (link : ℕ) → (outbox_of outboxes.old link).room
        ≤ (outbox_of outboxes.new link).room + 534 }
{
    let mut rest = dues;
    while let Some(first) = rest.first() {
        let link = first.link;
        let (own, others) = rest.split_at(count_of_link(link, rest));
        send_items(
            &mut outboxes[link as usize],
            setup,
            link as usize,
            sample,
            own,
        );
        rest = others;
    }
}

/// Sends the items that are due on one link, in one text, and nothing where there are none. There
/// is room for it.
fn send_items(outbox: &mut Outbox, setup: &Setup, link: usize, sample: &Sample, dues: &[Due])
    requires link { link < length setup.now.addresses }
    requires sendable { AreSendable (items_in dues.now) }
    requires fits { most_bits_of (items_in dues.now) ≤ payload_bits }
    requires room { 534 ≤ outbox.old.room }
    ensures sent { outbox.new.sent
        ≡ outbox.old.sent ++ ended_lines (texts_of_items setup.now link sample.now
        (items_in dues.now)) }
    ensures unbroken { All IsUnbroken (texts_of_items setup.now link sample.now
        (items_in dues.now)) }
    ensures room { outbox.old.room ≤ outbox.new.room + 534 }
{
    let mut out = BitWriter::new();
    write_items(&mut out, setup, sample, dues);
    send(outbox, setup, link, out);
}

/// How many of the dues at the front are on this link.
fn count_of_link(link: u8, dues: &[Due]) -> usize
    ensures { result ≡ count_at_front link dues.now }
{
    let mut count = 0;
    for due in dues {
        if due.link != link {
            return count;
        }
        count += 1;
    }
    count
}
