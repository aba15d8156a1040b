//! The check code of a text, by long division octet for octet.
ghost use Rattle.std.specs.Prelude.{◌≡◌, ℕ, ◌+◌, List, length, Bool};
ghost use Rattle.bit_terms.specs.Bits.{unsigned_bits};
ghost use Rattle.bit_terms.specs.Octets.{octets_bits};
ghost use Rattle.acars_envelope.specs.Check.{check_of, divided, IsRemainder};
ghost use Rattle.acars_envelope.specs.Register.{Absorbs};

use crate::remainders::remainder;

/// The register before the first octet: ones alone.
pub(crate) const START: u16 = 0xffff;

/// The check code of octets: a cyclic redundancy check of 16 bits with the generator
/// x^16 + x^12 + x^5 + 1, its register all ones at first, each octet's most significant bit first,
/// nothing reflected, the end value complemented (this project's profile, no statement about the check
/// of a real data link). The code of no octets is 0000, and that of the text `123456789` is D64E.
pub fn check_code(bytes: &[u8]) -> u16
    ensures { result ≡ check_of bytes.now }
{
    !with_octets(START, bytes)
}

/// The register after some octets.
pub(crate) fn with_octets(register: u16, octets: &[u8]) -> u16
    ensures { Absorbs register (octets_bits octets.now) result }
{
    let mut after = register;
    for octet in octets {
        after = with_octet(after, *octet);
    }
    after
}

/// The register after one octet, which is divided with the register's upper half at once, by the
/// table of remainders.
fn with_octet(register: u16, octet: u8) -> u16
    ensures { Absorbs register (unsigned_bits 8 octet) result }
{
    let upper = (register >> 8) as u8;
    (register << 8) ^ remainder(upper ^ octet)
}

/// The law of the check code, as a contract: long division of a polynomial by the generator, in as many
/// steps as it has coefficients beyond sixteen, leaves its remainder.
pub fn division_leaves_the_remainder()
    ensures { (steps : ℕ) (polynomial : List Bool) → length polynomial ≡ steps + 16
        → IsRemainder polynomial (divided steps polynomial) }
{}
