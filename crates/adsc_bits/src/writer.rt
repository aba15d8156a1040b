//! The writer of fields of bits.

ghost use Rattle.std.specs.Prelude.{◌≡◌, ◌+◌, ◌%◌, ◌*◌, ◌^◌, ◌<◌, ◌≤◌, [], ◌++◌, length};
ghost use Rattle.bit_terms.specs.Bits.{unsigned_bits};
ghost use Rattle.bit_terms.specs.Octets.{octets_bits};
ghost use Rattle.bit_terms.specs.Signed.{signed_bits, FitsSigned, twos_complement as twos_complement_of};
ghost use Rattle.adsc_bits.specs.Packing.{octets_of};
ghost use Rattle.adsc_bits.specs.Padding.{padding};

use crate::shifts::{high_part, joined, low_part};
use arrayvec::ArrayVec;
use std::marker::Model;

/// The bits written so far, at most 2,040: the 255 octets of the longest payload. Contracts see the
/// list of the bits.
///
/// Source: this project's profile of the order of bits and of the limit.
#[derive(Drop)]
pub struct BitWriter {
    octets: ArrayVec<u8, 255>,
    // The bits after the last whole octet, as a number of `filled` digits.
    partial: u8,
    filled: u8,
}

impl Model for BitWriter {
    ghost use Rattle.std.specs.Prelude.{List, Bool, ◌+◌, ◌*◌, ◌^◌, ◌<◌, ◌≤◌, ◌++◌};
    ghost use Rattle.arrayvec.specs.ArrayVec.{array_vec_len};
    ghost use Rattle.bit_terms.specs.Bits.{unsigned_bits};
    ghost use Rattle.bit_terms.specs.Octets.{octets_bits};

    ghost Value = { List Bool };

    ghost view = { λ w. octets_bits w.octets.items ++ unsigned_bits w.filled w.partial };

    ghost invariant = { λ w. (w.filled < 8) × (w.partial < 2 ^ w.filled)
        × (8 * array_vec_len w.octets + w.filled ≤ 2040) };
}

impl BitWriter {
    /// A writer that has written nothing.
    pub fn new() -> BitWriter
        ensures { result ≡ [] }
    {
        BitWriter {
            octets: ArrayVec::new(),
            partial: 0,
            filled: 0,
        }
    }

    /// How many bits were written.
    pub fn bit(&self) -> u32
        ensures count { result ≡ length self.now }
        ensures within { length self.now ≤ 2040 }
    {
        8 * self.octets.len() as u32 + self.filled as u32
    }

    /// Writes `value` as a field of `width` bits, 1 to 32. The value is below two to the width, and
    /// there is room for the field.
    pub fn put(&mut self, value: u32, width: u8)
        requires width { (1 ≤ width) × (width ≤ 32) }
        requires fits { value < 2 ^ width }
        requires room { length self.old + width ≤ 2040 }
        ensures bits { self.new ≡ self.old ++ unsigned_bits width value }
        ensures len { length self.new ≡ length self.old + width }
    {
        let mut pending = joined(self.partial as u64, value as u64, width);
        let mut count = self.filled + width;
        while count >= 8 {
            count -= 8;
            self.octets.push(high_part(pending, count) as u8);
            pending = low_part(pending, count);
        }
        self.partial = pending as u8;
        self.filled = count;
    }

    /// Writes `value` as a signed field of `width` bits, 1 to 32, in two's complement. The value
    /// fits the field, and there is room for it.
    pub fn put_signed(&mut self, value: i32, width: u8)
        requires width { (1 ≤ width) × (width ≤ 32) }
        requires fits { FitsSigned width value }
        requires room { length self.old + width ≤ 2040 }
        ensures bits { self.new ≡ self.old ++ signed_bits width value }
        ensures len { length self.new ≡ length self.old + width }
    {
        self.put(twos_complement(value, width), width)
    }

    /// Writes zeros up to the end of the octet; none where the octet is whole already.
    pub fn pad_octet(&mut self)
        ensures bits { self.new ≡ self.old ++ unsigned_bits (padding (length self.old)) 0 }
        ensures len { length self.new ≡ length self.old + padding (length self.old) }
        ensures whole { length self.new % 8 ≡ 0 }
    {
        let missing = (8 - self.bit() % 8) % 8;
        if missing > 0 {
            self.put(0, missing as u8);
        }
    }

    /// The octets that were written. Whole octets were written.
    pub fn finish(self) -> ArrayVec<u8, 255>
        requires { length self % 8 ≡ 0 }
        ensures bits { octets_bits result.items ≡ self }
        ensures octets { result.items ≡ octets_of self }
    {
        octets_are_spelled(self.octets.as_slice());
        self.octets
    }
}

/// Octets are those that their bits spell: what a slice of octets holds is known to be below 256.
fn octets_are_spelled(octets: &[u8])
    ensures { octets_of (octets_bits octets.now) ≡ octets.now }
{
    let _count = octets.len();
}

/// The number that stands for `value` in a signed field of `width` bits.
fn twos_complement(value: i32, width: u8) -> u32
    requires width { (1 ≤ width) × (width ≤ 32) }
    requires fits { FitsSigned width value }
    ensures { result ≡ twos_complement_of width value }
{
    if value < 0 {
        ((1u64 << width) - value.unsigned_abs() as u64) as u32
    } else {
        value as u32
    }
}
