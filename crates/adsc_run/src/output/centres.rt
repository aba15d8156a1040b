//! The lines of the centres.
ghost use Rattle.std.specs.Prelude.{◌≡◌, ◌+◌, ◌≤◌, ◌++◌, flat_map, length};
ghost use Rattle.adsc_run.specs.OutcomeTexts.{line_of_row, lines_of_row};
ghost use Rattle.adsc_run.specs.Outgoing.{Puts, on_way};
ghost use Rattle.arrayvec.specs.ArrayVec.{array_vec_len};
ghost use Rattle.centre_core.specs.Sending.{message_payload};
ghost use Rattle.run_rules.specs.Output.{kind_letter as kind_letter_text, request_field, row_fields, row_line as row_line_text};

use super::outgoing::Outgoing;
use crate::outcome::CentreRow;
use acars_envelope::Address;
use adsc_io::Sink;
use adsc_requests::{Kind, Message, Uplink, encode_uplink};
use arrayvec::ArrayVec;
use centre_core::Shown;
use output_fields::{Line, push, push_number, push_octets};

/// Puts the lines of the centres of rows.
pub(super) fn put_centres<K: Sink>(out: &mut Outgoing, sink: &mut K, rows: &[CentreRow])
    ensures { Puts (on_way (K.written sink.old) (K.faults sink.old) out.old) (on_way (K.written sink.new) (K.faults sink.new) out.new)
        (flat_map lines_of_row rows.now) }
{
    for row in rows {
        put_centre(out, sink, row);
    }
}

/// Puts the four lines of a centre.
fn put_centre<K: Sink>(out: &mut Outgoing, sink: &mut K, row: &CentreRow)
    ensures { Puts (on_way (K.written sink.old) (K.faults sink.old) out.old) (on_way (K.written sink.new) (K.faults sink.new) out.new)
        (lines_of_row row.now) }
{
    put_row(out, sink, row, Kind::Demand);
    put_row(out, sink, row, Kind::Periodic);
    put_row(out, sink, row, Kind::Event);
    put_row(out, sink, row, Kind::Emergency);
}

/// Puts the line of a centre's row of this kind.
fn put_row<K: Sink>(out: &mut Outgoing, sink: &mut K, row: &CentreRow, kind: Kind)
    ensures { Puts (on_way (K.written sink.old) (K.faults sink.old) out.old) (on_way (K.written sink.new) (K.faults sink.new) out.new)
        (line_of_row row.now kind) }
{
    let line = row_line(row.address, kind, &row.centre.shown(kind));
    out.put(sink, line.as_slice());
}

/// The line of a row.
fn row_line(address: Address, kind: Kind, row: &Shown) -> Line
    ensures { result.items ≡ row_line_text address kind row.now }
{
    let mut line = Line::new();
    push(&mut line, b"C,");
    push(&mut line, address.seven().as_slice());
    push(&mut line, b",");
    push(&mut line, kind_letter(kind));
    push_row(&mut line, row);
    push(&mut line, b"\n");
    line
}

/// The letter of a kind of contract.
fn kind_letter(kind: Kind) -> &'static [u8]
    ensures letter { result.now ≡ kind_letter_text kind }
    ensures one { length result.now ≤ 1 }
{
    match kind {
        Kind::Demand => b"D",
        Kind::Periodic => b"P",
        Kind::Event => b"V",
        Kind::Emergency => b"M",
    }
}

/// Appends where a request stands, a comma before it.
fn push_row(line: &mut Line, row: &Shown)
    requires { array_vec_len line.old + 172 ≤ 256 }
    ensures text { line.new.items ≡ line.old.items ++ row_fields row.now }
    ensures len { array_vec_len line.new ≤ array_vec_len line.old + 172 }
{
    match row {
        Shown::Nothing => push(line, b",none"),
        Shown::Pending(request) => push_named(line, b",pending", request),
        Shown::Confirmed(request) => push_named(line, b",confirmed", request),
        Shown::Partial(request) => push_named(line, b",partial", request),
        Shown::Refused(request, reason) => {
            push(line, b",refused");
            push_number(line, u32::from(*reason));
            push_request(line, request);
        }
        Shown::Cancelling(request) => push_named(line, b",cancelling", request),
    }
}

/// Appends a word of at most 12 bytes and a request.
fn push_named(line: &mut Line, word: &[u8], request: &Message)
    requires short { length word.now ≤ 12 }
    requires room { array_vec_len line.old + 165 ≤ 256 }
    ensures text { line.new.items ≡ line.old.items ++ (word.now ++ request_field request.now) }
    ensures len { array_vec_len line.new ≤ array_vec_len line.old + 165 }
{
    push(line, word);
    push_request(line, request);
}

/// Appends a comma, and a request with its number as the hexadecimal digits of its payload.
fn push_request(line: &mut Line, request: &Message)
    requires { array_vec_len line.old + 153 ≤ 256 }
    ensures text { line.new.items ≡ line.old.items ++ request_field request.now }
    ensures len { array_vec_len line.new ≤ array_vec_len line.old + 153 }
{
    push(line, b",");
    push_octets(line, payload_of(*request).as_slice());
}

/// The payload of one message.
fn payload_of(message: Message) -> ArrayVec<u8, 255>
    ensures payload { result.items ≡ message_payload message }
    ensures few { array_vec_len result ≤ 76 }
{
    let mut messages = ArrayVec::new();
    messages.push(message);
    encode_uplink(&Uplink { messages })
}
