//! A text from the ground, read.

ghost use Rattle.std.specs.Prelude.{◌≡◌};
ghost use Rattle.ground_texts.specs.Readings.{ReadsAnswer, ReadsPayload, ReadsText};

use crate::ground_text::{AdsUplink, AfnUplink, GroundText};
use acars_envelope::{Body, Envelope, unseal};
use adsc_requests::{Refusal, Uplink, decode_uplink};
use afn_logon::{AfnRefusal, Answer, read_answer};

/// What a text from the ground says, whatever characters it has: the first bad place of its envelope, as [`acars_envelope::unseal`]
/// tells it, or what its envelope carries. The payload of an ADS text is read as [`adsc_requests::decode_uplink`] does, and the
/// characters of an AFN text as [`afn_logon::read_answer`] does. Texts follow ARINC 622, payloads and characters RTCA DO-258A /
/// EUROCAE ED-100A; first faults are this project's profile.
pub fn read_ground_text(text: &[u8]) -> GroundText
    ensures { ReadsText text.now result }
{
    let Envelope { address, body, .. } = match unseal(text) {
        Ok(envelope) => envelope,
        Err(fault) => return GroundText::Refused(fault),
    };
    match body {
        Body::Ads {
            registration,
            payload,
        } => {
            let asked = read_payload(payload.as_slice());
            GroundText::Ads(AdsUplink {
                address,
                registration,
                octets: payload,
                asked,
            })
        }
        Body::Afn { text } => GroundText::Afn(AfnUplink {
            address,
            answer: read_characters(text.as_slice()),
        }),
    }
}

/// What a payload asks, or its first fault.
fn read_payload(octets: &[u8]) -> Result<Uplink, Refusal>
    ensures { ReadsPayload octets.now result }
{
    decode_uplink(octets)
}

/// The answer that characters are, or their first mismatch.
fn read_characters(characters: &[u8]) -> Result<Answer, AfnRefusal>
    ensures { ReadsAnswer characters.now result }
{
    read_answer(characters)
}
