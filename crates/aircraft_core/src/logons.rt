//! Logons: the contact that the aircraft sends, and how far the logon of each link has come.
ghost use Rattle.std.specs.Prelude.{◌≡◌, ℕ, ◌+◌, ◌<◌, ◌≤◌, length, slice_index_or};
ghost use Rattle.afn_logon.specs.Contents.{position_data};
ghost use Rattle.afn_logon.specs.Makings.{position_at};
ghost use Rattle.afn_logon.specs.declared.logon.Logon.TheVariants.{Nothing};
ghost use Rattle.aircraft_core.specs.LogonStates.{logon_after};
ghost use Rattle.aircraft_core.specs.Outboxes.{HasRoom};
ghost use Rattle.aircraft_core.specs.Taking.{HasLinkBelow, IsTableOf, ContactWasSent};

use crate::entry::Entry;
use crate::outbox::Outbox;
use crate::setup::Setup;
use acars_envelope::{Body, Envelope, seal};
use afn_logon::{Logon, Position, write_contact};
use contract_table::Table;
use flight_samples::Sample;

/// Sends the contact of the aircraft on a link, whether or not the link is live: at the table's
/// time, and at the position of this sample. There is room for it.
pub(crate) fn send_contact(
    outbox: &mut Outbox,
    setup: &Setup,
    latest: &Sample,
    table: &Table,
    link: u8,
)
    requires link { link < length setup.now.addresses }
    requires table { IsTableOf setup.now table.now }
    requires room { HasRoom outbox.old }
    ensures sent { ContactWasSent setup.now latest.now table.now link outbox.old.sent outbox.new.sent }
    ensures room { outbox.old.room ≤ outbox.new.room + 534 }
{
    let contact = setup.contact(table.time(), position_of(latest), table.is_live(link));
    let envelope = Envelope {
        address: setup.address(link as usize),
        body: Body::Afn {
            text: write_contact(&contact),
        },
    };
    outbox.send_text(seal(&envelope).as_slice());
}

/// The present position of a sample.
fn position_of(sample: &Sample) -> Position
    ensures { position_data result ≡ position_at sample.now.lat sample.now.lon }
{
    Position::at(sample.lat, sample.lon)
}

/// Notes an entry in the logons of the links: a contact that was sent, or an answer to one.
pub(crate) fn note(logons: &mut [Logon], entry: &Entry)
    requires { HasLinkBelow (length logons.old) entry.now }
    ensures each_link { length logons.new ≡ length logons.old }
    ensures states { (link : ℕ) → link < length logons.old
        → slice_index_or logons.new link Nothing
        ≡ logon_after link (slice_index_or logons.old link Nothing) entry.now }
{
    match entry {
        Entry::Answer { link, code, .. } => logons[*link as usize].answer(*code),
        Entry::Logon { link, .. } => logons[*link as usize].contact(),
        Entry::Uplink { .. } | Entry::Sample { .. } | Entry::Tick { .. } | Entry::Crew { .. } => {}
    }
}
