//! Reading an AFN text from its characters on.
ghost use Rattle.std.specs.Prelude.{◌≡◌, ℕ, ◌+◌, ◌-◌, ◌≤◌, ◌<◌, ◌++◌, length, drop, codes, true, IsTrue, IfOk, IfErr, OnOk, slice_index};
ghost use Rattle.acars_envelope.specs.declared.refusal.EnvelopeRefusal.{EnvelopeRefusal};
ghost use Rattle.acars_envelope.specs.Bodies.{HasItsForms, covered_octets, is_text_character, is_well_formed, written_body};
ghost use Rattle.acars_envelope.specs.Check.{check_of};
ghost use Rattle.acars_envelope.specs.Faults.{AreRight, IsAfnFault, IsFor, IsTextCharacterFault, IsTextDigitFault, IsTextSizeFault, is_right_digit};
ghost use Rattle.acars_envelope.specs.Texts.{four_digits};

use crate::pieces::held;
use crate::places::{check_digits, check_last_digits};
use crate::refusal::{EnvelopeRefusal, EnvelopeWhy, refused};
use crate::texts::Body;
use crate::writer::check_of_afn;

/// The body of an AFN text, or the first bad place behind its letters.
pub(crate) fn read_afn(text: &[u8]) -> Result<Body, EnvelopeRefusal>
    requires { IsFor (codes "AFN") text.now }
    ensures forms { IfOk result (λ b. HasItsForms b × IsTrue (is_well_formed b)) }
    ensures spelled { IfOk result (λ b. drop 9 text.now
        ≡ written_body b ++ four_digits (check_of (covered_octets b))) }
    ensures fault { IfErr result (λ r. IsAfnFault text.now r) }
{
    check_text_size(text)?;
    check_text_characters(text)?;
    check_text_digits(text)?;
    let characters = &text[12..text.len() - 4];
    check_last_digits(text, check_of_afn(characters))?;
    Ok(Body::Afn {
        text: held(characters),
    })
}

/// Tests that a text of this length has room for a character and a check, and no more than it may.
fn check_text_size(text: &[u8]) -> Result<(), EnvelopeRefusal>
    ensures size { OnOk result ((17 ≤ length text.now) × (length text.now ≤ 271)) }
    ensures fault { IfErr result (λ r. IsTextSizeFault text.now r) }
    ensures passed { OnOk result ((r : EnvelopeRefusal) → IsTextSizeFault text.now r → ⊥) }
{
    let length = text.len();
    if length < 17 {
        return Err(refused(length as u32, EnvelopeWhy::TooShort));
    }
    if length > 271 {
        return Err(refused(271, EnvelopeWhy::TooLong));
    }
    Ok(())
}

/// Tests the characters from place 12 on, up to the check.
fn check_text_characters(text: &[u8]) -> Result<(), EnvelopeRefusal>
    requires long { 17 ≤ length text.now }
    requires short { length text.now ≤ 271 }
    ensures right { OnOk result (AreRight
        (λ place. is_text_character (slice_index text.now place)) 12 (length text.now - 4)) }
    ensures fault { IfErr result (λ r. IsTextCharacterFault text.now r) }
    ensures passed { OnOk result ((r : EnvelopeRefusal) → IsTextCharacterFault text.now r → ⊥) }
{
    for place in 12..text.len() - 4 {
        if !(b' '..=b'~').contains(&text[place]) {
            return Err(refused(place as u32, EnvelopeWhy::Character));
        }
    }
    Ok(())
}

/// Tests the digits of the check.
fn check_text_digits(text: &[u8]) -> Result<(), EnvelopeRefusal>
    requires long { 17 ≤ length text.now }
    requires short { length text.now ≤ 271 }
    ensures right { OnOk result
        (AreRight (is_right_digit text.now) (length text.now - 4) (length text.now)) }
    ensures fault { IfErr result (λ r. IsTextDigitFault text.now r) }
    ensures passed { OnOk result ((r : EnvelopeRefusal) → IsTextDigitFault text.now r → ⊥) }
{
    check_digits(text, text.len() - 4, text.len())
}
