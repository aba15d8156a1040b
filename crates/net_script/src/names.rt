//! The names in a line.

ghost use Rattle.std.specs.Prelude.{◌≡◌, ◌<◌, ◌^◌, drop, length, IfSome, IfNone};
ghost use Rattle.std.specs.Int.{to_be_bytes, w32};
ghost use Rattle.acars_envelope.specs.Names.{IsAddress, IsFlight, IsMark, with_dots};
ghost use Rattle.acars_envelope.specs.Texts.{six_digits};
ghost use Rattle.net_script.specs.Forms.{HasForm, a_flight, a_mark, an_address, an_airframe};

use acars_envelope::{Address, Flight, Registration, octets_of_digits};

/// The registration whose mark the field is.
pub(crate) fn registration_of(field: &[u8]) -> Option<Registration>
    ensures mark { IfSome result (λ registration. IsMark field.now) }
    ensures dotted { IfSome result (λ registration. registration ≡ with_dots field.now) }
    ensures none { IfNone result (¬ HasForm a_mark field.now) }
{
    Registration::new(field)
}

/// The flight identifier that the field is.
pub(crate) fn flight_of(field: &[u8]) -> Option<Flight>
    ensures flight { IfSome result IsFlight }
    ensures some { IfSome result (λ flight. field.now ≡ flight) }
    ensures none { IfNone result (¬ HasForm a_flight field.now) }
{
    Flight::new(field)
}

/// The address that the field is.
pub(crate) fn address_of(field: &[u8]) -> Option<Address>
    ensures address { IfSome result IsAddress }
    ensures some { IfSome result (λ address. field.now ≡ address) }
    ensures none { IfNone result (¬ HasForm an_address field.now) }
{
    Address::new(field)
}

/// The address of 24 bits that the field spells in six hexadecimal digits with capital letters.
pub(crate) fn airframe_of(field: &[u8]) -> Option<u32>
    ensures size { IfSome result (λ airframe. airframe < 2 ^ 24) }
    ensures some { IfSome result (λ airframe. field.now ≡ six_digits airframe) }
    ensures none { IfNone result (¬ HasForm an_airframe field.now) }
{
    let octets = octets_of_digits(field)?;
    match octets.as_slice() {
        [first, second, third] => Some(joined([*first, *second, *third])),
        _ => None,
    }
}

/// The number whose lower three octets these are, and whose highest is 0.
fn joined(octets: [u8; 3]) -> u32
    requires { length octets ≡ 3 }
    ensures size { result < 2 ^ 24 }
    ensures octets { drop 1 (to_be_bytes w32 result) ≡ octets }
{
    u32::from_be_bytes([0, octets[0], octets[1], octets[2]])
}
