//! Laws of the format, over its definitions alone.

ghost use Rattle.std.specs.Prelude.{◌≡◌, ◌≤◌, ◌⊎◌, ℕ, List, length};
ghost use Rattle.adsc_requests.specs.Grammar.{EncodesUplink, uplink_octets};
ghost use Rattle.adsc_requests.specs.Refusals.{IsFirstUplinkFault, HasUplink, HasFault, HasContents};
ghost use Rattle.adsc_requests.specs.declared.message.Uplink.{Uplink as UplinkValue};
ghost use Rattle.adsc_requests.specs.declared.refusal.Refusal.{Refusal as RefusalValue};

use crate::decoding::decode_uplink;

/// Each payload is an encoding of an uplink or has a first fault, and never both.
pub fn uplink_or_fault(payload: &[u8])
    ensures one { HasUplink payload.now ⊎ HasFault payload.now }
    ensures never_both { HasUplink payload.now → HasFault payload.now → ⊥ }
{
    match decode_uplink(payload) {
        Ok(_) => {}
        Err(_) => {}
    }
}

/// The same of every list of numbers, in terms of what messages ask: the grammar and the table of
/// faults leave nothing out. A payload has at most one first fault, which stands at octet 77 or
/// before, and is an encoding of at most one uplink.
pub fn grammar_or_fault()
    ensures one { (payload : List ℕ) → HasContents payload ⊎ HasFault payload }
    ensures never_both { (payload : List ℕ) → HasContents payload → HasFault payload → ⊥ }
    ensures one_fault { (payload : List ℕ) (a b : RefusalValue) →
        IsFirstUplinkFault a payload → IsFirstUplinkFault b payload → a ≡ b }
    ensures near { (payload : List ℕ) (r : RefusalValue) →
        IsFirstUplinkFault r payload → r.octet ≤ 77 }
    ensures one_uplink { (payload : List ℕ) (a b : UplinkValue) →
        EncodesUplink a payload → EncodesUplink b payload → a ≡ b }
{}

/// What is written for an uplink, with the groups of each message by rising tag, is an encoding of
/// it of at most 76 octets.
pub fn written_is_encoding()
    ensures encoding { (u : UplinkValue) → EncodesUplink u (uplink_octets u) }
    ensures size { (u : UplinkValue) → length (uplink_octets u) ≤ 76 }
{}
