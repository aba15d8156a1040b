//! The reader of fields of bits.

ghost use Rattle.std.specs.Prelude.{◌≡◌, ◌+◌, ◌^◌, ◌<◌, ◌≤◌, ◌↔◌, ◌==◌, length, IfOk, IfErr, OnErr, IsErr};
ghost use Rattle.bit_terms.specs.Signed.{signed_of};
ghost use Rattle.bit_terms.specs.Reading.{all_unread, Takes, TakesSigned, taken, taken_signed, Gives};

use crate::shifts::{high_part, joined, low_part};
use std::marker::Model;

/// Fewer bits are left than a field has.
#[derive(Clone, Copy, Debug, PartialEq, Eq)]
pub struct Short {
    /// The place of the field's first bit, counted from 0 at the first bit of all.
    pub bit: u32,
}

/// What is left to read of some octets. Contracts see the bits that are left, and the place of the
/// first of them.
///
/// Source: this project's profile of the order of bits.
#[derive(Drop)]
pub struct BitReader<'a> {
    // The octets of which no bit was taken yet.
    rest: &'a [u8],
    // The bits before those octets, as a number of `pending` digits.
    partial: u8,
    pending: u8,
    place: u32,
}

impl<'a> Model for BitReader<'a> {
    ghost use Rattle.std.specs.Prelude.{◌+◌, ◌*◌, ◌^◌, ◌<◌, ◌≤◌, ◌++◌, length};
    ghost use Rattle.bit_terms.specs.Bits.{unsigned_bits};
    ghost use Rattle.bit_terms.specs.Octets.{octets_bits};
    ghost use Rattle.bit_terms.specs.Reading.{Unread};

    ghost Value = { Unread };

    ghost view = { λ r. record {
      left = unsigned_bits r.pending r.partial ++ octets_bits r.rest.now;
      at = r.place;
    } };

    ghost invariant = { λ r. (r.pending < 8) × (r.partial < 2 ^ r.pending)
        × (r.place + r.pending + 8 * length r.rest.now ≤ 524280) };
}

impl<'a> BitReader<'a> {
    /// A reader of all bits of the octets, of which there are at most 65,535.
    pub fn new(octets: &'a [u8]) -> BitReader<'a>
        requires { length octets.now ≤ 65535 }
        ensures { result ≡ all_unread octets.now }
    {
        BitReader {
            rest: octets,
            partial: 0,
            pending: 0,
            place: 0,
        }
    }

    /// The place of the first bit that is left, counted from 0 at the first bit of all.
    pub fn bit(&self) -> u32
        ensures place { result ≡ self.now.at }
        ensures within { self.now.at + length self.now.left ≤ 524280 }
    {
        self.place
    }

    /// Whether no bit is left.
    pub fn at_end(&self) -> bool
        ensures { result ≡ (length self.now.left == 0) }
    {
        self.pending == 0 && self.rest.is_empty()
    }

    /// A second reader at the same place, to read ahead with: this one stays where it is.
    pub fn fork(&self) -> BitReader<'a>
        ensures { result ≡ self.now }
    {
        BitReader {
            rest: self.rest,
            partial: self.partial,
            pending: self.pending,
            place: self.place,
        }
    }

    /// Takes a field of `width` bits, 1 to 32.
    ///
    /// # Errors
    ///
    /// `Short` exactly where fewer than `width` bits are left; its bit is the place where the field
    /// begins, and the reader does not move.
    pub fn take(&mut self, width: u8) -> Result<u32, Short>
        requires { (1 ≤ width) × (width ≤ 32) }
        // The number whose bits stand next is taken.
        ensures found { IfOk result (λ v. Takes width v self.old self.new) }
        // It is refused exactly where too few bits are left, at the field's first bit.
        ensures short { IsErr result ↔ (length self.old.left < width) }
        ensures unmoved { IfErr result (λ e. (e.bit ≡ self.old.at) × (self.new ≡ self.old)) }
        // This one joins the crates: all of it as a function of what is left, by which decoders
        // above are proved.
        ensures gives { Gives (λ v. v) (λ e. e.bit) result self.new (taken width self.old) }
    {
        self.field(width)
    }

    /// Takes a signed field of `width` bits, 1 to 32, in two's complement.
    ///
    /// # Errors
    ///
    /// `Short` exactly where fewer than `width` bits are left; its bit is the place where the field
    /// begins, and the reader does not move.
    pub fn take_signed(&mut self, width: u8) -> Result<i32, Short>
        requires { (1 ≤ width) × (width ≤ 32) }
        // The number whose bits stand next is taken.
        ensures found { IfOk result (λ v. TakesSigned width v self.old self.new) }
        // It is refused exactly where too few bits are left, at the field's first bit.
        ensures short { IsErr result ↔ (length self.old.left < width) }
        ensures unmoved { IfErr result (λ e. (e.bit ≡ self.old.at) × (self.new ≡ self.old)) }
        // This one joins the crates: all of it as a function of what is left, by which decoders
        // above are proved.
        ensures gives { Gives (λ v. v) (λ e. e.bit) result self.new (taken_signed width self.old) }
    {
        self.signed_field(width)
    }

    // Gathers whole octets until there are enough bits, and leaves what the field doesn't need
    // pending.
    fn field(&mut self, width: u8) -> Result<u32, Short>
        requires { (1 ≤ width) × (width ≤ 32) }
        ensures gives { Gives (λ v. v) (λ e. e.bit) result self.new (taken width self.old) }
        ensures unmoved { OnErr result (self.new ≡ self.old) }
    {
        let mut rest = self.rest;
        let mut gathered = self.partial as u64;
        let mut count = self.pending;
        while count < width {
            let Some((octet, others)) = rest.split_first() else {
                return Err(Short { bit: self.place });
            };
            gathered = joined(gathered, *octet as u64, 8);
            count += 8;
            rest = others;
        }
        count -= width;
        self.rest = rest;
        self.partial = low_part(gathered, count) as u8;
        self.pending = count;
        self.place += width as u32;
        Ok(high_part(gathered, count) as u32)
    }

    fn signed_field(&mut self, width: u8) -> Result<i32, Short>
        requires { (1 ≤ width) × (width ≤ 32) }
        ensures gives { Gives (λ v. v) (λ e. e.bit) result self.new (taken_signed width self.old) }
        ensures unmoved { OnErr result (self.new ≡ self.old) }
    {
        let number = self.take(width)?;
        Ok(signed_value(number, width))
    }
}

/// The signed value for which `number` stands in a field of `width` bits.
fn signed_value(number: u32, width: u8) -> i32
    requires width { (1 ≤ width) × (width ≤ 32) }
    requires fits { number < 2 ^ width }
    ensures { result ≡ signed_of width number }
{
    if (number as u64) < 1 << (width - 1) {
        number as i32
    } else {
        (number as i64 - (1i64 << width)) as i32
    }
}
