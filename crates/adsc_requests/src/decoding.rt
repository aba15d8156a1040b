//! A payload is an uplink, or has a first fault.

ghost use Rattle.std.specs.Prelude.{◌≡◌, ◌≤◌, ◌+◌, ◌-◌, ◌*◌, List, length, IfOk, IfErr, Ok, Err};
ghost use Rattle.adsc_requests.specs.Grammar.{EncodesUplink};
ghost use Rattle.adsc_requests.specs.Refusals.{IsFirstUplinkFault};
ghost use Rattle.adsc_requests.specs.declared.message.Uplink.{Uplink as UplinkValue};
ghost use Rattle.adsc_requests.specs.declared.refusal.Refusal.{Refusal as RefusalValue};

mod fields;
mod gathered;
mod groups;
mod stop;
mod uplink;

use crate::message::Uplink;
use crate::refusal::Refusal;
use stop::Stop;
use uplink::read_uplink;

/// The refusal of a payload of so many octets.
fn refusal_at(stop: Stop, octets: usize) -> Refusal
    requires left { stop.left ≤ octets }
    requires place { octets ≤ stop.left + 76 }
    ensures { result ≡ record {
      bit = 8 * (octets - stop.left);
      reason = stop.reason;
      number = stop.number;
      octet = octets - stop.left + 1;
    } }
{
    let at = octets - stop.left;
    Refusal {
        bit: 8 * at as u32,
        reason: stop.reason,
        number: stop.number,
        octet: at as u8 + 1,
    }
}

/// Reads the payload of an uplink: the one uplink that it encodes, or its first fault.
///
/// A payload is 1 to 4 messages, one behind the other, each with its groups in any order and each
/// group at most once. It is judged from the left. The refusal tells the first place at which the
/// format is broken, after RTCA DO-258A / EUROCAE ED-100A in this project's profile: the reasons
/// are those of [`reason`](crate::reason). A payload may have any length; one of more than 76
/// octets is refused.
pub fn decode_uplink(payload: &[u8]) -> Result<Uplink, Refusal>
    // What is read is encoded so, and what is encoded so is read.
    ensures uplink { IfOk result (λ u. EncodesUplink u payload.now) }
    ensures only { (u : UplinkValue) → EncodesUplink u payload.now → result ≡ Ok u }
    // What is refused has this first fault, and what has a first fault is refused with it.
    ensures fault { IfErr result (λ r. IsFirstUplinkFault r payload.now) }
    ensures refused { (r : RefusalValue) → IsFirstUplinkFault r payload.now → result ≡ Err r }
    // A refusal has one of the reasons, and stands at octet 77 or before.
    ensures reason { IfErr result (λ r. (1 ≤ r.reason) × (r.reason ≤ 13)) }
    ensures place { IfErr result (λ r. (1 ≤ r.octet) × (r.octet ≤ 77)) }
{
    match read_uplink(payload) {
        Ok(uplink) => Ok(uplink),
        Err(stop) => Err(refusal_at(stop, payload.len())),
    }
}
