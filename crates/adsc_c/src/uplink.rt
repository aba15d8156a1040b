//! The calls on uplinks.

ghost use Rattle.std.specs.Prelude.{◌≡◌, ◌≢◌, ◌↔◌, IsTrue};
ghost use Rattle.acars_envelope.specs.Check.{check_of};
ghost use Rattle.contract_rules.specs.Messages.{interval_seconds as seconds_of};
ghost use Rattle.adsc_requests.specs.Grammar.{EncodesUplink};
ghost use Rattle.adsc_requests.specs.Refusals.{IsFirstUplinkFault};
ghost use Rattle.adsc_requests.specs.declared.message.Message.{Message as MessageValue};
ghost use Rattle.adsc_requests.specs.declared.message.Uplink.{Uplink as UplinkValue};
ghost use Rattle.adsc_requests.specs.declared.refusal.Refusal.{Refusal as RefusalValue};
ghost use Rattle.adsc_c.specs.Statuses.{done, no_struct, refused};
ghost use Rattle.adsc_c.specs.Uplinks.{EncodesFlatUplink, IsKindOf, SpellsMessage, SpellsUplinkFaultOf, SpellsUplinkOf, flat_message, flat_refusal, flat_uplink, octets_in};

use crate::flat::{flat_payload, flat_refusal, flat_uplink, kind_number};
use crate::same::same_message;
use crate::status::{DONE, NO_STRUCT, REFUSED};
use crate::structs::{FlatMessage, FlatPayload, FlatUplink, FlatUplinkRefusal};
use crate::value::{message_of, uplink_of};
use acars_envelope::check_code;
use adsc_requests::{decode_uplink, encode_uplink, interval_seconds, kind_of};

/// The check code of octets (this project's profile).
#[unsafe(no_mangle)]
pub extern "C" fn adsc_check_code(octets: &[u8]) -> u16
    ensures { result ≡ check_of octets.now }
{
    check_code(octets)
}

/// The reporting interval in seconds that an octet stands for, 0 to 4096 (RTCA DO-258A / EUROCAE ED-100A).
#[unsafe(no_mangle)]
pub extern "C" fn adsc_interval_seconds(octet: u8) -> u32
    ensures { result ≡ seconds_of octet }
{
    interval_seconds(octet)
}

/// Reads the payload of an uplink. Status 0: `uplink` spells the one uplink that the payload encodes, and `refusal` is
/// as it was. Status 1: `refusal` spells the payload's first fault, and `uplink` is as it was.
#[unsafe(no_mangle)]
pub extern "C" fn adsc_decode_uplink(
    payload: &[u8],
    uplink: &mut FlatUplink,
    refusal: &mut FlatUplinkRefusal,
) -> u8
    ensures uplink { result ≡ done
        → SpellsUplinkOf payload.now uplink.new × (refusal.new ≡ refusal.old) }
    ensures only { (u : UplinkValue) → EncodesUplink u payload.now
        → (result ≡ done) × (uplink.new ≡ flat_uplink u) }
    ensures fault { result ≢ done → (result ≡ refused)
        × SpellsUplinkFaultOf payload.now refusal.new × (uplink.new ≡ uplink.old) }
    ensures refused { (r : RefusalValue) → IsFirstUplinkFault r payload.now
        → (result ≡ refused) × (refusal.new ≡ flat_refusal r) }
{
    match decode_uplink(payload) {
        Ok(read) => {
            *uplink = flat_uplink(&read);
            DONE
        }
        Err(fault) => {
            *refusal = flat_refusal(fault);
            REFUSED
        }
    }
}

/// Writes the payload of an uplink. Status 0: `payload` has the octets, at most 76, and 0 behind them. Status 2: `uplink`
/// spells no uplink, and `payload` is as it was.
#[unsafe(no_mangle)]
pub extern "C" fn adsc_encode_uplink(uplink: &FlatUplink, payload: &mut FlatPayload) -> u8
    ensures encoding { result ≡ done → EncodesFlatUplink uplink.now (octets_in payload.new) }
    ensures each { (u : UplinkValue) → flat_uplink u ≡ uplink.now → result ≡ done }
    ensures refused { result ≢ done → (result ≡ no_struct) × (payload.new ≡ payload.old) }
{
    match uplink_of(uplink) {
        Some(value) => {
            *payload = flat_payload(encode_uplink(&value).as_slice());
            DONE
        }
        None => NO_STRUCT,
    }
}

/// Tells which kind of contract a message asks for: 0 none, 1 a demand, 2 periodic, 3 event, 4 emergency (RTCA DO-258A /
/// EUROCAE ED-100A). Status 2: `message` spells no message, and `kind` is as it was.
#[unsafe(no_mangle)]
pub extern "C" fn adsc_kind_of(message: &FlatMessage, kind: &mut u8) -> u8
    ensures kind { result ≡ done → IsKindOf message.now kind.new }
    ensures each { (m : MessageValue) → flat_message m ≡ message.now → result ≡ done }
    ensures refused { result ≢ done → (result ≡ no_struct) × (kind.new ≡ kind.old) }
{
    match message_of(message) {
        Some(value) => {
            *kind = kind_number(kind_of(&value));
            DONE
        }
        None => NO_STRUCT,
    }
}

/// Tells whether two messages are the same: `same` is then 1, else 0. Status 2: one of them spells no message, and `same`
/// is as it was.
#[unsafe(no_mangle)]
pub extern "C" fn adsc_same_message(first: &FlatMessage, second: &FlatMessage, same: &mut u8) -> u8
    ensures same { result ≡ done → (same.new ≡ 1) ↔ (first.now ≡ second.now) }
    ensures spelled { result ≡ done → SpellsMessage first.now × SpellsMessage second.now }
    ensures each { (m n : MessageValue) → flat_message m ≡ first.now
        → flat_message n ≡ second.now → result ≡ done }
    ensures refused { result ≢ done → (result ≡ no_struct) × (same.new ≡ same.old) }
{
    if !is_message(first) || !is_message(second) {
        return NO_STRUCT;
    }
    *same = sameness(first, second);
    DONE
}

/// Whether the flat struct spells a message.
fn is_message(flat: &FlatMessage) -> bool
    ensures spelled { IsTrue result → SpellsMessage flat.now }
    ensures each { (m : MessageValue) → flat_message m ≡ flat.now → IsTrue result }
{
    match message_of(flat) {
        Some(_) => true,
        None => false,
    }
}

/// 1 where two messages are the same, else 0.
fn sameness(first: &FlatMessage, second: &FlatMessage) -> u8
    ensures { (result ≡ 1) ↔ (first.now ≡ second.now) }
{
    if same_message(*first, *second) { 1 } else { 0 }
}
