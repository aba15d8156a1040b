//! The lines of refused texts.
ghost use Rattle.std.specs.Prelude.{◌≡◌, ◌+◌, ◌≤◌, ◌++◌, flat_map};
ghost use Rattle.adsc_run.specs.Outgoing.{Puts, on_way};
ghost use Rattle.arrayvec.specs.ArrayVec.{array_vec_len};
ghost use Rattle.run_rules.specs.Output.{refused_line as refused_line_text, why_fields};

use super::outgoing::Outgoing;
use adsc_io::Sink;
use output_fields::{Line, push, push_envelope_fault, push_number, push_request_fault};
use run_rules::{RefusedLine, RefusedWhy};

/// Puts the lines of refused texts.
pub(super) fn put_refused<K: Sink>(out: &mut Outgoing, sink: &mut K, refused: &[RefusedLine])
    ensures { Puts (on_way (K.written sink.old) (K.faults sink.old) out.old) (on_way (K.written sink.new) (K.faults sink.new) out.new)
        (flat_map refused_line_text refused.now) }
{
    for one in refused {
        out.put(sink, refused_line(one).as_slice());
    }
}

/// The line of a refused text.
fn refused_line(refused: &RefusedLine) -> Line
    ensures { result.items ≡ refused_line_text refused.now }
{
    let mut line = Line::new();
    push(&mut line, b"X");
    push_number(&mut line, refused.line);
    push(&mut line, b",");
    push_why(&mut line, &refused.why);
    push(&mut line, b"\n");
    line
}

/// Appends why a text is refused.
fn push_why(line: &mut Line, why: &RefusedWhy)
    requires { array_vec_len line.old + 28 ≤ 256 }
    ensures text { line.new.items ≡ line.old.items ++ why_fields why.now }
    ensures len { array_vec_len line.new ≤ array_vec_len line.old + 28 }
{
    match why {
        RefusedWhy::Envelope(fault) => push_envelope_fault(line, fault),
        RefusedWhy::UnknownAddress => push(line, b"UNKNOWN,1"),
        RefusedWhy::Afn { place } => {
            push(line, b"TEXT");
            push_number(line, *place);
        }
        RefusedWhy::OtherRegistration { place } => {
            push(line, b"OTHER");
            push_number(line, *place);
        }
        RefusedWhy::Bits(refusal) => push_request_fault(line, refusal),
    }
}
