//! Reading an ADS text from its registration on.
ghost use Rattle.std.specs.Prelude.{◌≡◌, ◌≢◌, false, ℕ, ◌+◌, ◌-◌, ◌%◌, ◌≤◌, ◌<◌, ◌++◌, length, drop, codes, min, true, IsTrue, IfOk, IfErr, OnOk};
ghost use Rattle.std.specs.List.{slice_range};
ghost use Rattle.arrayvec.specs.ArrayVec.{array_vec_len};
ghost use Rattle.hex.specs.Hex.{IsBytes, encode_upper};
ghost use Rattle.acars_envelope.specs.declared.refusal.EnvelopeRefusal.{EnvelopeRefusal};
ghost use Rattle.acars_envelope.specs.Bodies.{HasItsForms, covered_octets, is_well_formed, written_body};
ghost use Rattle.acars_envelope.specs.Check.{check_of};
ghost use Rattle.acars_envelope.specs.Faults.{AreRight, IsAdsFault, IsFirstBad, IsFor, IsPayloadDigitFault, IsPayloadSizeFault, IsRegistrationFault, is_right_digit, is_right_in_registration, may_follow, why_in_registration};
ghost use Rattle.acars_envelope.specs.Names.{IsRegistration};
ghost use Rattle.acars_envelope.specs.Texts.{four_digits};

use crate::decoding::append_octets;
use crate::names::Registration;
use crate::places::{check_digits, check_last_digits};
use crate::refusal::{EnvelopeRefusal, EnvelopeWhy, refused};
use crate::texts::Body;
use crate::writer::check_of_ads;
use arrayvec::ArrayVec;

/// The body of an ADS text, or the first bad place behind its letters.
pub(crate) fn read_ads(text: &[u8]) -> Result<Body, EnvelopeRefusal>
    requires there { 12 ≤ length text.now }
    requires letters { IsFor (codes "ADS") text.now }
    ensures forms { IfOk result (λ b. HasItsForms b × IsTrue (is_well_formed b)) }
    ensures spelled { IfOk result (λ b. drop 9 text.now
        ≡ written_body b ++ four_digits (check_of (covered_octets b))) }
    ensures fault { IfErr result (λ r. IsAdsFault text.now r) }
{
    let registration = read_registration(text)?;
    check_payload_digits(text)?;
    check_payload_size(text)?;
    let mut payload = ArrayVec::new();
    append_payload(text, &mut payload);
    check_last_digits(text, check_of_ads(&registration, payload.as_slice()))?;
    Ok(Body::Ads {
        registration,
        payload,
    })
}

/// The registration in an ADS text, or its first bad place.
fn read_registration(text: &[u8]) -> Result<Registration, EnvelopeRefusal>
    requires { 12 ≤ length text.now }
    ensures there { OnOk result (19 ≤ length text.now) }
    ensures value { IfOk result (λ g. IsRegistration g × (slice_range text.now 12 19 ≡ g)) }
    ensures fault { IfErr result (λ r. IsRegistrationFault text.now r) }
    ensures passed { OnOk result ((r : EnvelopeRefusal) → IsRegistrationFault text.now r → ⊥) }
{
    check_registration(text)?;
    let seven = [
        text[12], text[13], text[14], text[15], text[16], text[17], text[18],
    ];
    if is_dots(seven) {
        return Err(refused(18, EnvelopeWhy::Registration));
    }
    Ok(Registration::from_seven(seven))
}

/// Whether all seven characters are dots.
fn is_dots(seven: [u8; 7]) -> bool
    ensures dots { IsTrue result → seven ≡ codes "......." }
    ensures others { result ≡ false → seven ≢ codes "......." }
{
    seven == *b"......."
}

/// Tests places 12 to 18 from the left.
fn check_registration(text: &[u8]) -> Result<(), EnvelopeRefusal>
    requires { 12 ≤ length text.now }
    ensures there { OnOk result (19 ≤ length text.now) }
    ensures right { OnOk result (AreRight (is_right_in_registration text.now) 12 19) }
    ensures fault { IfErr result (λ r.
        IsFirstBad text.now (is_right_in_registration text.now) why_in_registration 12 19 r) }
{
    let mut before = b'.';
    for place in 12..19u32 {
        let Some(character) = text.get(place as usize) else {
            return Err(refused(place, EnvelopeWhy::TooShort));
        };
        if !follows(before, *character) {
            return Err(refused(place, EnvelopeWhy::Registration));
        }
        before = *character;
    }
    Ok(())
}

/// Whether a character may stand behind another in a registration.
fn follows(before: u8, character: u8) -> bool
    ensures { result ≡ may_follow before character }
{
    match character {
        b'A'..=b'Z' | b'0'..=b'9' | b'-' => true,
        _ => character == b'.' && before == b'.',
    }
}

/// Tests the digits from place 19 on, as far as a payload and a check can reach.
fn check_payload_digits(text: &[u8]) -> Result<(), EnvelopeRefusal>
    requires { 19 ≤ length text.now }
    ensures right { OnOk result
        (AreRight (is_right_digit text.now) 19 (min 533 (length text.now))) }
    ensures fault { IfErr result (λ r. IsPayloadDigitFault text.now r) }
    ensures passed { OnOk result ((r : EnvelopeRefusal) → IsPayloadDigitFault text.now r → ⊥) }
{
    check_digits(text, 19, text.len().min(533))
}

/// Tests that a payload's size can be that of a text of this length.
fn check_payload_size(text: &[u8]) -> Result<(), EnvelopeRefusal>
    ensures size { OnOk result ((25 ≤ length text.now) × (length text.now ≤ 533)) }
    ensures even { OnOk result ((length text.now - 19) % 2 ≡ 0) }
    ensures fault { IfErr result (λ r. IsPayloadSizeFault text.now r) }
    ensures passed { OnOk result ((r : EnvelopeRefusal) → IsPayloadSizeFault text.now r → ⊥) }
{
    let length = text.len();
    if length > 533 {
        return Err(refused(533, EnvelopeWhy::TooLong));
    }
    if length < 25 {
        return Err(refused(length as u32, EnvelopeWhy::TooShort));
    }
    if (length - 19) % 2 == 1 {
        return Err(refused(length as u32, EnvelopeWhy::Hex));
    }
    Ok(())
}

/// Puts the octets whose digits stand from place 19 up to the check into a payload without any.
fn append_payload(text: &[u8], payload: &mut ArrayVec<u8, 255>)
    requires empty { array_vec_len payload.old ≡ 0 }
    requires long { 25 ≤ length text.now }
    requires short { length text.now ≤ 533 }
    requires even { (length text.now - 19) % 2 ≡ 0 }
    requires digits { AreRight (is_right_digit text.now) 19 (length text.now) }
    ensures size { (1 ≤ array_vec_len payload.new) × (array_vec_len payload.new ≤ 255) }
    ensures bytes { IsBytes payload.new.items }
    ensures spelled { slice_range text.now 19 (length text.now - 4) ≡ encode_upper payload.new.items }
{
    append_octets(payload, &text[19..text.len() - 4]);
}
