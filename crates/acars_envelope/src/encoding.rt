//! Octets as hexadecimal digits with capital letters.
ghost use Rattle.std.specs.Prelude.{◌≡◌, ◌+◌, ◌*◌, ◌≤◌, ◌++◌, length, map};
ghost use Rattle.std.specs.Char.{to_ascii_uppercase};
ghost use Rattle.arrayvec.specs.ArrayVec.{array_vec_len};
ghost use Rattle.hex.specs.Hex.{IsBytes, encode_lower, encode_upper};
ghost use Rattle.acars_envelope.specs.Texts.{four_digits};

use crate::pieces::append;
use arrayvec::ArrayVec;

/// What stands in a text where digits are yet to be written.
pub(crate) static BLANKS: [u8; 510] = [0; 510];

/// Appends octets as digits, two an octet, to a text that has room for them.
pub(crate) fn append_digits<const N: usize>(text: &mut ArrayVec<u8, N>, octets: &[u8])
    requires few { length octets.now ≤ 255 }
    requires room { array_vec_len text.old + 2 * length octets.now ≤ N }
    ensures items { text.new.items ≡ text.old.items ++ encode_upper octets.now }
    ensures len { array_vec_len text.new ≡ array_vec_len text.old + 2 * length octets.now }
    ensures bytes { IsBytes octets.now }
{
    let start = text.len();
    append(text, &BLANKS[..2 * octets.len()]);
    write_digits(octets, &mut text.as_mut_slice()[start..]);
}

/// Appends a code of 16 bits as four digits to a text that has room for them.
pub(crate) fn append_code<const N: usize>(text: &mut ArrayVec<u8, N>, code: u16)
    requires { array_vec_len text.old + 4 ≤ N }
    ensures items { text.new.items ≡ text.old.items ++ four_digits code }
    ensures len { array_vec_len text.new ≡ array_vec_len text.old + 4 }
{
    let mut digits = [0u8; 4];
    write_digits(&code.to_be_bytes(), &mut digits);
    append(text, &digits);
}

/// Writes octets as hexadecimal digits with capital letters, two an octet, over a slice of twice their
/// number. These are the digits of an envelope's payload and check, and wherever this project's
/// profile writes hexadecimal.
pub fn write_digits(octets: &[u8], digits: &mut [u8])
    requires { length digits.old ≡ 2 * length octets.now }
    ensures written { digits.new ≡ encode_upper octets.now }
    ensures bytes { IsBytes octets.now }
{
    encode(octets, digits);
    make_capital(digits);
}

/// Writes octets as digits with small letters.
fn encode(octets: &[u8], digits: &mut [u8])
    requires { length digits.old ≡ 2 * length octets.now }
    ensures { digits.new ≡ encode_lower octets.now }
{
    hex::encode_to_slice(octets, digits).unwrap();
}

/// Makes the letters of digits capital, in place.
fn make_capital(digits: &mut [u8])
    ensures { digits.new ≡ map to_ascii_uppercase digits.old }
{
    for digit in digits.iter_mut() {
        *digit = digit.to_ascii_uppercase();
    }
}
