//! Numbers in decimal.
ghost use Rattle.std.specs.Prelude.{◌≡◌, ◌++◌, OnOk, decimal};
ghost use Rattle.output_fields.specs.Fields.{number_field};
ghost use Rattle.output_fields.specs.Room.{NeedsRoom};

use itoa::Buffer;
use std::alloc::AllocError;

/// Appends a comma and a number in decimal: a field of an output line, of at most 11 bytes. This project's profile.
pub fn append_number(out: &mut Vec<u8>, number: u32) -> Result<(), AllocError>
    ensures text { OnOk result (out.new.items ≡ out.old.items ++ number_field number) }
    ensures room { NeedsRoom 11 out.old out.new result }
{
    out.extend_from_slice(b",")?;
    append_decimal(out, number)
}

/// Appends a number in decimal, of at most 10 digits.
pub fn append_decimal(out: &mut Vec<u8>, number: u32) -> Result<(), AllocError>
    ensures text { OnOk result (out.new.items ≡ out.old.items ++ decimal number) }
    ensures room { NeedsRoom 10 out.old out.new result }
{
    let mut digits = Buffer::new();
    out.extend_from_slice(digits.format(number).as_bytes())
}
