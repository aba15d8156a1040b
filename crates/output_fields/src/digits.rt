//! Hexadecimal digits with capital letters.
ghost use Rattle.std.specs.Prelude.{◌≡◌, ◌≤◌, ◌∷◌, ◌++◌, length, OnOk};
ghost use Rattle.hex.specs.Hex.{encode_upper};
ghost use Rattle.acars_envelope.specs.Texts.{four_digits};
ghost use Rattle.output_fields.specs.Fields.{comma};
ghost use Rattle.output_fields.specs.Room.{NeedsRoom};

use acars_envelope::write_digits;
use std::alloc::AllocError;

/// Appends up to four octets as hexadecimal digits, two an octet.
pub fn append_octets(out: &mut Vec<u8>, octets: &[u8]) -> Result<(), AllocError>
    requires { length octets.now ≤ 4 }
    ensures text { OnOk result (out.new.items ≡ out.old.items ++ encode_upper octets.now) }
    ensures room { NeedsRoom 8 out.old out.new result }
{
    let mut digits = [0u8; 8];
    let digits = &mut digits[..2 * octets.len()];
    write_digits(octets, digits);
    out.extend_from_slice(digits)
}

/// Appends a comma and a check code.
pub(crate) fn append_check_code(out: &mut Vec<u8>, code: u16) -> Result<(), AllocError>
    ensures text { OnOk result (out.new.items ≡ out.old.items ++ comma ∷ four_digits code) }
    ensures room { NeedsRoom 9 out.old out.new result }
{
    out.extend_from_slice(b",")?;
    append_octets(out, code.to_be_bytes().as_slice())
}
