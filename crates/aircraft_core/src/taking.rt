//! What an entry does to an aircraft.
//!
//! An uplink's acts are told to the table one by one, and what is due at all of them goes into one
//! downlink of its link. An entry of the flight is one act, and what is due at it goes into a
//! downlink of each link on which something is due. A logon sends the contact on its link, and an
//! answer to it sends nothing.
ghost use Rattle.std.specs.Prelude.{◌≡◌, ℕ, ◌+◌, ◌%◌, ◌≤◌, ◌<◌, [], ◌∷◌, All, length};
ghost use Rattle.contract_table.specs.Acts.{IsTaken as IsTakenByTable, rules_act};
ghost use Rattle.aircraft_core.specs.Entries.{IsTakenBy};
ghost use Rattle.aircraft_core.specs.Outboxes.{outbox_of, HasRoom};
ghost use Rattle.aircraft_core.specs.Sending.{payload_bits};
ghost use Rattle.aircraft_core.specs.Telling.{IsActOf, IsOfFlight};
ghost use Rattle.aircraft_core.specs.Taking.{AreTaken, IsHeard, IsTableOf, IsTaken, IsUplinkTaken, WasTold, WasWritten, said_on};

use crate::downlink::{send, write_items};
use crate::entry::Entry;
use crate::links::send_by_link;
use crate::logons::send_contact;
use crate::outbox::Outbox;
use crate::setup::Setup;
use adsc_bits::BitWriter;
use adsc_requests::{Message, decode_uplink};
use contract_table::{Act, Table};
use flight_samples::Sample;

/// Takes an entry: its acts are told to the table, what is due is sent, and a sample is the latest
/// from then on.
pub(crate) fn take(
    setup: &Setup,
    latest: &mut Sample,
    table: &mut Table,
    outboxes: &mut [Outbox],
    entry: &Entry,
)
    requires entry { IsTakenBy setup.now entry.now }
    requires table { IsTableOf setup.now table.old }
    requires each_link { length outboxes.old ≡ length setup.now.addresses }
    requires room { All HasRoom outboxes.old }
    ensures taken { IsTaken setup.now entry.now latest.old latest.new table.old table.new outboxes.old outboxes.new }
    ensures table { IsTableOf setup.now table.new }
    ensures each_link { length outboxes.new ≡ length outboxes.old }
    ensures room { (link : ℕ) → (outbox_of outboxes.old link).room
        ≤ (outbox_of outboxes.new link).room + 534 }
{
    match entry {
        Entry::Uplink { link, bytes, .. } => {
            let outbox = &mut outboxes[*link as usize];
            take_uplink(setup, latest, table, outbox, *link, bytes.as_slice());
        }
        Entry::Sample { sample, .. } => {
            let act = Act::Moved {
                before: *latest,
                now: *sample,
            };
            *latest = *sample;
            take_act(setup, latest, table, outboxes, &act);
        }
        Entry::Tick { t, .. } => take_act(setup, latest, table, outboxes, &Act::Ticked { t: *t }),
        Entry::Crew { on, .. } => take_act(setup, latest, table, outboxes, &Act::Crew { on: *on }),
        Entry::Logon { link, .. } => {
            let outbox = &mut outboxes[*link as usize];
            send_contact(outbox, setup, latest, table, *link);
        }
        Entry::Answer { .. } => {}
    }
}

/// Takes an act of the flight: what is due at it is sent on each link.
fn take_act(setup: &Setup, latest: &Sample, table: &mut Table, outboxes: &mut [Outbox], act: &Act)
    requires of_flight { IsOfFlight act.now }
    requires moment { IsTakenByTable table.old.links act.now }
    requires table { IsTableOf setup.now table.old }
    requires each_link { length outboxes.old ≡ length setup.now.addresses }
    requires room { All HasRoom outboxes.old }
    ensures taken { AreTaken setup.now latest.now
        (rules_act act.now ∷ []) table.old table.new outboxes.old outboxes.new }
    ensures table { IsTableOf setup.now table.new }
    ensures each_link { length outboxes.new ≡ length outboxes.old }
    ensures room { (link : ℕ) → (outbox_of outboxes.old link).room
        ≤ (outbox_of outboxes.new link).room + 534 }
{
    let dues = table.step(act);
    send_by_link(setup, latest, outboxes, dues.list.as_slice());
}

/// Takes an uplink: what is due at its messages, or at the fault of its payload, is sent on its
/// link.
fn take_uplink(
    setup: &Setup,
    latest: &Sample,
    table: &mut Table,
    outbox: &mut Outbox,
    link: u8,
    payload: &[u8],
)
    requires link { link < length setup.now.addresses }
    requires few { length payload.now ≤ 255 }
    requires table { IsTableOf setup.now table.old }
    requires room { HasRoom outbox.old }
    ensures taken { IsUplinkTaken setup.now latest.now link payload.now table.old table.new outbox.old.sent outbox.new.sent }
    ensures table { IsTableOf setup.now table.new }
    ensures room { outbox.old.room ≤ outbox.new.room + 534 }
{
    let mut out = BitWriter::new();
    hear_payload(setup, latest, table, &mut out, link, payload);
    send(outbox, setup, link as usize, out);
}

/// Takes the payload of an uplink: what is due at its messages, or at its fault, is written.
fn hear_payload(
    setup: &Setup,
    latest: &Sample,
    table: &mut Table,
    out: &mut BitWriter,
    link: u8,
    payload: &[u8],
)
    requires link { link < length setup.now.addresses }
    requires few { length payload.now ≤ 255 }
    requires table { IsTableOf setup.now table.old }
    requires empty { out.old ≡ [] }
    ensures heard { IsHeard setup.now latest.now link payload.now table.old table.new out.old out.new }
    ensures table { IsTableOf setup.now table.new }
    ensures whole { length out.new % 8 ≡ 0 }
{
    match decode_uplink(payload) {
        Ok(uplink) => hear(setup, latest, table, out, link, uplink.messages.as_slice()),
        Err(refusal) => {
            let act = Act::Malformed { link, refusal };
            tell(setup, latest, table, out, link, &act);
        }
    }
}

/// Takes the messages of an uplink one by one: what is due at each is written behind what was
/// written before.
fn hear(
    setup: &Setup,
    latest: &Sample,
    table: &mut Table,
    out: &mut BitWriter,
    link: u8,
    messages: &[Message],
)
    requires link { link < length setup.now.addresses }
    requires few { length messages.now ≤ 4 }
    requires table { IsTableOf setup.now table.old }
    requires empty { out.old ≡ [] }
    ensures told { WasTold table.old (said_on link messages.now) table.new }
    ensures written { WasWritten setup.now latest.now table.old link
        (said_on link messages.now) out.old out.new }
    ensures table { IsTableOf setup.now table.new }
    ensures whole { length out.new % 8 ≡ 0 }
{
    for message in messages {
        let act = Act::Said {
            link,
            message: *message,
        };
        tell(setup, latest, table, out, link, &act);
    }
}

/// Takes one act of a link: what is due at it is written behind what was written before. There is
/// room for it.
fn tell(setup: &Setup, latest: &Sample, table: &mut Table, out: &mut BitWriter, link: u8, act: &Act)
    requires link { link < length setup.now.addresses }
    requires of_link { IsActOf link act.now }
    requires table { IsTableOf setup.now table.old }
    requires room { length out.old + 496 ≤ payload_bits }
    requires whole { length out.old % 8 ≡ 0 }
    ensures told { WasTold table.old (rules_act act.now ∷ []) table.new }
    ensures written { WasWritten setup.now latest.now table.old link
        (rules_act act.now ∷ []) out.old out.new }
    ensures table { IsTableOf setup.now table.new }
    ensures size { length out.new ≤ length out.old + 496 }
    ensures whole { length out.new % 8 ≡ 0 }
{
    let dues = table.step(act);
    write_items(out, setup, latest, dues.list.as_slice());
}
