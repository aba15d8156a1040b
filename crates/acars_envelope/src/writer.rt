//! Writing an envelope's text.
ghost use Rattle.std.specs.Prelude.{◌≡◌, ◌+◌, ◌*◌, ◌≤◌, ◌++◌, length, codes};
ghost use Rattle.arrayvec.specs.ArrayVec.{array_vec_len};
ghost use Rattle.acars_envelope.specs.Bodies.{covered_octets, written_body, HasItsForms};
ghost use Rattle.acars_envelope.specs.Check.{check_of};
ghost use Rattle.acars_envelope.specs.Texts.{envelope_text, IsEnvelopeText};

use crate::check::{START, with_octets};
use crate::encoding::{append_code, append_digits};
use crate::names::Registration;
use crate::pieces::append;
use crate::texts::{Body, Envelope, Text};

/// The text of an envelope: a slash, the address, a dot, the application's three letters, for ADS the
/// registration and the payload in hexadecimal digits, for AFN the characters, and the four digits of
/// the check (ARINC 622, with this project's check). It can't be refused.
pub fn seal(envelope: &Envelope) -> Text
    ensures text { result.items ≡ envelope_text envelope.now }
    ensures right { IsEnvelopeText envelope.now result.items }
{
    let mut text = Text::new();
    append(&mut text, b"/");
    append(&mut text, &envelope.address.seven());
    append(&mut text, b".");
    append_body(&mut text, &envelope.body);
    append_code(&mut text, check_of_body(&envelope.body));
    text
}

/// Appends a body as it is written.
fn append_body(text: &mut Text, body: &Body)
    requires { array_vec_len text.old ≤ 9 }
    ensures items { text.new.items ≡ text.old.items ++ written_body body.now }
    ensures len { array_vec_len text.new ≤ 529 }
    ensures forms { HasItsForms body.now }
{
    match body {
        Body::Ads {
            registration,
            payload,
        } => {
            append(text, b"ADS");
            append(text, &registration.seven());
            append_digits(text, payload.as_slice());
        }
        Body::Afn { text: characters } => {
            append(text, b"AFN");
            append(text, characters.as_slice());
        }
    }
}

/// The check code of what a body's check covers.
fn check_of_body(body: &Body) -> u16
    ensures { result ≡ check_of (covered_octets body.now) }
{
    match body {
        Body::Ads {
            registration,
            payload,
        } => check_of_ads(registration, payload.as_slice()),
        Body::Afn { text } => check_of_afn(text.as_slice()),
    }
}

/// The check code of an ADS body.
pub(crate) fn check_of_ads(registration: &Registration, payload: &[u8]) -> u16
    ensures { result ≡ check_of (codes "ADS" ++ registration.now ++ payload.now) }
{
    let register = with_octets(START, b"ADS");
    let register = with_octets(register, &registration.seven());
    !with_octets(register, payload)
}

/// The check code of an AFN body.
pub(crate) fn check_of_afn(text: &[u8]) -> u16
    ensures { result ≡ check_of (codes "AFN" ++ text.now) }
{
    let register = with_octets(START, b"AFN");
    !with_octets(register, text)
}
