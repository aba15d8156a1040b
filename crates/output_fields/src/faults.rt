//! What is wrong with a text.
ghost use Rattle.std.specs.Prelude.{◌≡◌, ◌≤◌, ◌++◌, OnOk, length};
ghost use Rattle.output_fields.specs.Faults.{envelope_code, envelope_fields, envelope_fault_fields, request_fault_fields};
ghost use Rattle.output_fields.specs.Room.{NeedsRoom};

use crate::digits::append_check_code;
use crate::numbers::{append_decimal, append_number};
use acars_envelope::{EnvelopeRefusal, EnvelopeWhy};
use adsc_requests::Refusal;
use std::alloc::AllocError;

/// Appends the code of an envelope's first bad place, a comma, and the place in decimal; for a wrong check not the place,
/// but the code that was found and the code that is due. The form of envelopes follows ARINC 622; the codes are this
/// project's profile.
pub fn append_envelope_fault(out: &mut Vec<u8>, fault: &EnvelopeRefusal) -> Result<(), AllocError>
    ensures text { OnOk result (out.new.items ≡ out.old.items ++ envelope_fault_fields fault.now) }
    ensures room { NeedsRoom 30 out.old out.new result }
{
    out.extend_from_slice(envelope_word(fault.why))?;
    append_envelope_fields(out, fault.place, fault.why)
}

/// Appends the first fault of an uplink's payload: `REASON-` and its reason, a comma, and its first bit in decimal. The
/// payloads follow RTCA DO-258A / EUROCAE ED-100A; reasons and the form of the code are this project's profile.
pub fn append_request_fault(out: &mut Vec<u8>, refusal: &Refusal) -> Result<(), AllocError>
    ensures text { OnOk result (out.new.items ≡ out.old.items ++ request_fault_fields refusal.now) }
    ensures room { NeedsRoom 28 out.old out.new result }
{
    out.extend_from_slice(b"REASON-")?;
    append_decimal(out, refusal.reason as u32)?;
    append_number(out, refusal.bit)
}

/// The code of an envelope's fault, of at most 12 letters.
pub(crate) fn envelope_word(why: EnvelopeWhy) -> &'static [u8]
    ensures code { result.now ≡ envelope_code why }
    ensures short { length result.now ≤ 12 }
{
    match why {
        EnvelopeWhy::Slash => b"SLASH",
        EnvelopeWhy::Address => b"ADDRESS",
        EnvelopeWhy::Dot => b"DOT",
        EnvelopeWhy::Imi => b"IMI",
        EnvelopeWhy::Registration => b"REGISTRATION",
        EnvelopeWhy::Hex => b"HEX",
        EnvelopeWhy::Character => b"CHARACTER",
        EnvelopeWhy::TooShort => b"SHORT",
        EnvelopeWhy::TooLong => b"LONG",
        EnvelopeWhy::Check { .. } => b"CHECK",
    }
}

/// Appends the place of an envelope's fault, or for a wrong check the code that was found and the code that is due.
fn append_envelope_fields(out: &mut Vec<u8>, place: u32, why: EnvelopeWhy) -> Result<(), AllocError>
    ensures text { OnOk result (out.new.items ≡ out.old.items ++ envelope_fields place why) }
    ensures room { NeedsRoom 18 out.old out.new result }
{
    match why {
        EnvelopeWhy::Check { found, due } => {
            append_check_code(out, found)?;
            append_check_code(out, due)
        }
        _ => append_number(out, place),
    }
}
