//! Why a line is refused, and how that is shown.
ghost use Rattle.std.specs.Prelude.{◌≡◌, ◌+◌, ◌≤◌, ◌++◌, length};
ghost use Rattle.shown_lines.specs.Texts.{payload_code, refusal_fields, refusal_text};
ghost use Rattle.shown_lines.specs.declared.room.TheConstants.{LINE_ROOM};

use crate::room::Room;
use acars_envelope::EnvelopeRefusal;
use adsc_downlink::{DownRefusal, DownWhy};
use adsc_io::MAX_LINE_BYTES;
use adsc_requests::Refusal;

/// What is wrong with a line of texts. This project's profile.
#[derive(Clone, Copy, Debug, PartialEq, Eq)]
pub enum TextRefusal {
    /// The line has more than 4,096 bytes.
    Long,
    /// The line begins neither with `U,` nor with `D,`.
    Form,
    /// The text is no envelope's: its first bad place.
    Envelope(EnvelopeRefusal),
    /// The payload of the envelope is no uplink: its first fault.
    Request(Refusal),
    /// The payload of the envelope is no downlink: its first fault.
    Payload(DownRefusal),
    /// The characters of the AFN text are no answer behind `U,`, or no contact behind `D,`.
    Characters {
        /// The place of their first mismatch, counted from 0 in the whole text.
        place: u32,
    },
}

/// Appends the line of a refusal, with the number of the line that is refused.
#[tactic(auto, unfolding(crate::specs::Texts::refusal_text))]
pub(crate) fn append_refusal(out: &mut Room, number: u32, refusal: &TextRefusal)
    requires { length out.old + 55 ≤ LINE_ROOM }
    ensures text { out.new ≡ out.old ++ refusal_text number refusal.now }
{
    out.append(b"line");
    out.append_number(number);
    out.append(b",refused,");
    append_refusal_fields(out, refusal);
    out.append(b"\n");
}

/// Appends the code of a refusal and what stands behind it.
fn append_refusal_fields(out: &mut Room, refusal: &TextRefusal)
    requires { length out.old + 30 ≤ LINE_ROOM }
    ensures text { out.new ≡ out.old ++ refusal_fields refusal.now }
    ensures size { length out.new ≤ length out.old + 30 }
{
    match refusal {
        TextRefusal::Long => {
            out.append(b"LONG");
            out.append_number(MAX_LINE_BYTES as u32);
        }
        TextRefusal::Form => out.append(b"FORM,0"),
        TextRefusal::Envelope(fault) => out.append_envelope_fault(fault),
        TextRefusal::Request(fault) => out.append_request_fault(fault),
        TextRefusal::Payload(fault) => {
            append_payload_code(out, fault.why);
            out.append_number(fault.bit);
        }
        TextRefusal::Characters { place } => {
            out.append(b"TEXT");
            out.append_number(*place);
        }
    }
}

/// Appends the code of a payload's fault.
fn append_payload_code(out: &mut Room, why: DownWhy)
    requires { length out.old + 10 ≤ LINE_ROOM }
    ensures text { out.new ≡ out.old ++ payload_code why }
    ensures size { length out.new ≤ length out.old + 10 }
{
    match why {
        DownWhy::Short => out.append(b"BITS-SHORT"),
        DownWhy::Tag => out.append(b"BITS-TAG"),
        DownWhy::Value => out.append(b"BITS-VALUE"),
        DownWhy::Many => out.append(b"BITS-MANY"),
    }
}
