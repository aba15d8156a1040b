//! The calls on envelopes and their texts.

ghost use Rattle.std.specs.Prelude.{◌≡◌, ◌≢◌, ◌≤◌, length, take};
ghost use Rattle.acars_envelope.specs.declared.refusal.EnvelopeRefusal.{EnvelopeRefusal as RefusalValue};
ghost use Rattle.acars_envelope.specs.declared.texts.Envelope.{Envelope as EnvelopeValue};
ghost use Rattle.acars_envelope.specs.Faults.{IsFirstEnvelopeFault};
ghost use Rattle.acars_envelope.specs.Texts.{IsEnvelopeText};
ghost use Rattle.adsc_c.specs.Envelopes.{SpellsEnvelope, SpellsEnvelopeFaultOf, SpellsEnvelopeOf, flat_envelope_refusal, why_number};
ghost use Rattle.adsc_c.specs.Statuses.{done, refused};

use crate::status::{DONE, REFUSED};
use crate::structs::{FlatEnvelope, FlatEnvelopeRefusal};
use acars_envelope::{Body, Envelope, EnvelopeRefusal, EnvelopeWhy, unseal};

/// Reads the text of an envelope. Status 0: `envelope` spells the one envelope that the text is of, and `refusal` is as it
/// was. Status 1: `refusal` spells the text's first bad place, and `envelope` is as it was.
#[unsafe(no_mangle)]
pub extern "C" fn adsc_unseal(
    text: &[u8],
    envelope: &mut FlatEnvelope,
    refusal: &mut FlatEnvelopeRefusal,
) -> u8
    ensures found { result ≡ done
        → SpellsEnvelopeOf text.now envelope.new × (refusal.new ≡ refusal.old) }
    ensures right { (e : EnvelopeValue) → IsEnvelopeText e text.now
        → (result ≡ done) × SpellsEnvelope envelope.new e }
    ensures fault { result ≢ done → (result ≡ refused)
        × SpellsEnvelopeFaultOf text.now refusal.new × (envelope.new ≡ envelope.old) }
    ensures first { (r : RefusalValue) → IsFirstEnvelopeFault text.now r
        → (result ≡ refused) × (refusal.new ≡ flat_envelope_refusal r) }
{
    match unseal(text) {
        Ok(read) => {
            *envelope = flat_envelope(&read);
            DONE
        }
        Err(fault) => {
            *refusal = flat_envelope_refusal(fault);
            REFUSED
        }
    }
}

/// The flat struct of an envelope.
fn flat_envelope(envelope: &Envelope) -> FlatEnvelope
    ensures { SpellsEnvelope result envelope.now }
{
    let address = envelope.address.seven();
    match &envelope.body {
        Body::Ads {
            registration,
            payload,
        } => FlatEnvelope {
            address,
            application: 1,
            registration: registration.seven(),
            count: payload.len() as u8,
            body: held(payload.as_slice()),
        },
        Body::Afn { text } => FlatEnvelope {
            address,
            application: 2,
            registration: [0; 7],
            count: text.len() as u8,
            body: held(text.as_slice()),
        },
    }
}

/// Octets at the beginning of 255, behind which all is 0.
fn held(octets: &[u8]) -> [u8; 255]
    requires { length octets.now ≤ 255 }
    ensures { take (length octets.now) result ≡ octets.now }
{
    let mut held = [0u8; 255];
    held[..octets.len()].copy_from_slice(octets);
    held
}

/// The flat struct of a refusal.
fn flat_envelope_refusal(refusal: EnvelopeRefusal) -> FlatEnvelopeRefusal
    ensures { result ≡ flat_envelope_refusal refusal }
{
    let (found, due) = match refusal.why {
        EnvelopeWhy::Check { found, due } => (found, due),
        _ => (0, 0),
    };
    FlatEnvelopeRefusal {
        place: refusal.place,
        why: why_number(refusal.why),
        found,
        due,
    }
}

/// The number of what is wrong.
fn why_number(why: EnvelopeWhy) -> u8
    ensures { result ≡ why_number why }
{
    match why {
        EnvelopeWhy::Slash => 1,
        EnvelopeWhy::Address => 2,
        EnvelopeWhy::Dot => 3,
        EnvelopeWhy::Imi => 4,
        EnvelopeWhy::Registration => 5,
        EnvelopeWhy::Hex => 6,
        EnvelopeWhy::Character => 7,
        EnvelopeWhy::TooShort => 8,
        EnvelopeWhy::TooLong => 9,
        EnvelopeWhy::Check { .. } => 10,
    }
}
