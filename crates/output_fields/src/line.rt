//! Lines of output that are made without memory.
ghost use Rattle.std.specs.Prelude.{◌≡◌, ◌+◌, ◌*◌, ◌≤◌, ◌∷◌, ◌++◌, decimal, length};
ghost use Rattle.acars_envelope.specs.Texts.{four_digits};
ghost use Rattle.arrayvec.specs.ArrayVec.{array_vec_len};
ghost use Rattle.hex.specs.Hex.{encode_upper};
ghost use Rattle.output_fields.specs.Faults.{envelope_fields, envelope_fault_fields, request_fault_fields};
ghost use Rattle.output_fields.specs.Fields.{comma, number_field};

use crate::faults::envelope_word;
use acars_envelope::{EnvelopeRefusal, EnvelopeWhy, write_digits};
use adsc_requests::Refusal;
use arrayvec::ArrayVec;
use itoa::Buffer;

/// A line of output as it is made, of at most 256 bytes. Each call that appends to it says how many bytes it may need, so that
/// none is refused. This project's profile.
pub type Line = ArrayVec<u8, 256>;

/// Appends bytes to a line.
pub fn push(line: &mut Line, bytes: &[u8])
    requires { array_vec_len line.old + length bytes.now ≤ 256 }
    ensures text { line.new.items ≡ line.old.items ++ bytes.now }
    ensures len { array_vec_len line.new ≡ array_vec_len line.old + length bytes.now }
{
    match line.try_extend_from_slice(bytes) {
        Ok(()) => (),
        Err(_) => unreachable!(),
    }
}

/// Appends a number in decimal, of at most 10 digits, to a line.
pub fn push_decimal(line: &mut Line, number: u32)
    requires { array_vec_len line.old + 10 ≤ 256 }
    ensures text { line.new.items ≡ line.old.items ++ decimal number }
    ensures len { array_vec_len line.new ≤ array_vec_len line.old + 10 }
{
    let mut digits = Buffer::new();
    push(line, digits.format(number).as_bytes());
}

/// Appends a comma and a number in decimal to a line: a field of at most 11 bytes.
pub fn push_number(line: &mut Line, number: u32)
    requires { array_vec_len line.old + 11 ≤ 256 }
    ensures text { line.new.items ≡ line.old.items ++ number_field number }
    ensures len { array_vec_len line.new ≤ array_vec_len line.old + 11 }
{
    push(line, b",");
    push_decimal(line, number);
}

/// Appends at most 76 octets, as many as the payload of an uplink has, as hexadecimal digits to a line, two an octet.
pub fn push_octets(line: &mut Line, octets: &[u8])
    requires few { length octets.now ≤ 76 }
    requires room { array_vec_len line.old + 2 * length octets.now ≤ 256 }
    ensures text { line.new.items ≡ line.old.items ++ encode_upper octets.now }
    ensures len { array_vec_len line.new ≡ array_vec_len line.old + 2 * length octets.now }
{
    let mut digits = [0u8; 152];
    let digits = &mut digits[..2 * octets.len()];
    write_digits(octets, digits);
    push(line, digits);
}

/// Appends an envelope's first bad place to a line, as [`append_envelope_fault`](crate::append_envelope_fault) does.
pub fn push_envelope_fault(line: &mut Line, fault: &EnvelopeRefusal)
    requires { array_vec_len line.old + 24 ≤ 256 }
    ensures text { line.new.items ≡ line.old.items ++ envelope_fault_fields fault.now }
    ensures len { array_vec_len line.new ≤ array_vec_len line.old + 24 }
{
    push(line, envelope_word(fault.why));
    push_envelope_fields(line, fault.place, fault.why);
}

/// Appends the place of an envelope's fault to a line, or for a wrong check the code that was found and the code that is due.
fn push_envelope_fields(line: &mut Line, place: u32, why: EnvelopeWhy)
    requires { array_vec_len line.old + 12 ≤ 256 }
    ensures text { line.new.items ≡ line.old.items ++ envelope_fields place why }
    ensures len { array_vec_len line.new ≤ array_vec_len line.old + 12 }
{
    match why {
        EnvelopeWhy::Check { found, due } => {
            push_check_code(line, found);
            push_check_code(line, due);
        }
        _ => push_number(line, place),
    }
}

/// Appends a comma and a check code to a line.
fn push_check_code(line: &mut Line, code: u16)
    requires { array_vec_len line.old + 5 ≤ 256 }
    ensures text { line.new.items ≡ line.old.items ++ comma ∷ four_digits code }
    ensures len { array_vec_len line.new ≡ array_vec_len line.old + 5 }
{
    push(line, b",");
    push_octets(line, code.to_be_bytes().as_slice());
}

/// Appends the first fault of an uplink's payload to a line, as [`append_request_fault`](crate::append_request_fault) does.
pub fn push_request_fault(line: &mut Line, refusal: &Refusal)
    requires { array_vec_len line.old + 28 ≤ 256 }
    ensures text { line.new.items ≡ line.old.items ++ request_fault_fields refusal.now }
    ensures len { array_vec_len line.new ≤ array_vec_len line.old + 28 }
{
    push(line, b"REASON-");
    push_decimal(line, refusal.reason as u32);
    push_number(line, refusal.bit);
}
