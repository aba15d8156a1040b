//! Octets from hexadecimal digits with capital letters.
ghost use Rattle.std.specs.Prelude.{◌≡◌, ◌↔◌, ℕ, ◌*◌, ◌%◌, ◌≤◌, List, length, IfSome, IsSome, IsSomeAnd};
ghost use Rattle.std.specs.List.{AllPass};
ghost use Rattle.arrayvec.specs.ArrayVec.{array_vec_len};
ghost use Rattle.hex.specs.Hex.{IsBytes, encode_upper};
ghost use Rattle.acars_envelope.specs.Faults.{is_capital_digit};

use crate::pieces::append;
use arrayvec::ArrayVec;

/// The octets that hexadecimal digits spell, two digits an octet, or None where the text isn't an even
/// number of `0` to `9` and `A` to `F`, 510 of them at most. Small letters are no digits here.
pub fn octets_of_digits(text: &[u8]) -> Option<ArrayVec<u8, 255>>
    ensures found { IsSome result ↔
        ((length text.now ≤ 510) × (length text.now % 2 ≡ 0)
        × AllPass is_capital_digit text.now) }
    ensures spelled { IfSome result (λ octets. text.now ≡ encode_upper octets.items) }
    ensures bytes { IfSome result (λ octets. IsBytes octets.items) }
    ensures right { (octets : List ℕ) → IsBytes octets → length octets ≤ 255
        → text.now ≡ encode_upper octets → IsSomeAnd result (λ found. found.items ≡ octets) }
{
    read_octets(text)
}

/// The same, by the form of the text alone.
fn read_octets(text: &[u8]) -> Option<ArrayVec<u8, 255>>
    ensures found { IsSome result ↔
        ((length text.now ≤ 510) × (length text.now % 2 ≡ 0)
        × AllPass is_capital_digit text.now) }
    ensures spelled { IfSome result (λ octets. text.now ≡ encode_upper octets.items) }
    ensures bytes { IfSome result (λ octets. IsBytes octets.items) }
{
    if text.len() > 510 {
        return None;
    }
    if text.len() % 2 == 1 {
        return None;
    }
    if !text.iter().all(|c| is_capital_digit(*c)) {
        return None;
    }
    let mut octets = ArrayVec::new();
    append_octets(&mut octets, text);
    Some(octets)
}

/// Puts the octets that digits spell into a list without any.
pub(crate) fn append_octets(octets: &mut ArrayVec<u8, 255>, digits: &[u8])
    requires empty { array_vec_len octets.old ≡ 0 }
    requires few { length digits.now ≤ 510 }
    requires even { length digits.now % 2 ≡ 0 }
    requires capital { AllPass is_capital_digit digits.now }
    ensures spelled { digits.now ≡ encode_upper octets.new.items }
    ensures bytes { IsBytes octets.new.items }
    ensures len { 2 * array_vec_len octets.new ≡ length digits.now }
{
    append(octets, &digits[..digits.len() / 2]);
    decode(digits, octets.as_mut_slice());
}

/// Writes the octets that digits spell over a slice of half their number.
pub(crate) fn decode(digits: &[u8], octets: &mut [u8])
    requires size { length digits.now ≡ 2 * length octets.old }
    requires capital { AllPass is_capital_digit digits.now }
    ensures octets { digits.now ≡ encode_upper octets.new }
    ensures bytes { IsBytes octets.new }
{
    hex::decode_to_slice(digits, octets).unwrap();
}

/// Whether the character is a digit or a letter from `A` to `F`.
pub(crate) fn is_capital_digit(character: u8) -> bool
    ensures { result ≡ is_capital_digit character }
{
    character.is_ascii_digit() || (b'A'..=b'F').contains(&character)
}
