//! Reading an envelope's text: the head and the application's letters.
ghost use Rattle.std.specs.Prelude.{◌≡◌, ℕ, ◌+◌, ◌-◌, ◌<◌, ◌≤◌, ◌++◌, length, take, drop, codes, true, IsTrue, IfOk, IfErr, OnErr, OnOk};
ghost use Rattle.acars_envelope.specs.declared.refusal.EnvelopeRefusal.{EnvelopeRefusal};
ghost use Rattle.acars_envelope.specs.declared.texts.Envelope.{Envelope};
ghost use Rattle.acars_envelope.specs.Faults.{AreRight, IsBodyFault, IsFirstEnvelopeFault, IsFor, IsHeadFault, IsImiFault, is_head_character, is_right_in_head, why_in_head, ◌OrElse◌};
ghost use Rattle.acars_envelope.specs.Names.{IsAddress};
ghost use Rattle.acars_envelope.specs.Bodies.{HasItsForms, covered_octets, is_well_formed, written_body};
ghost use Rattle.acars_envelope.specs.Check.{check_of};
ghost use Rattle.acars_envelope.specs.Texts.{IsEnvelopeText, four_digits};

use crate::ads::read_ads;
use crate::afn::read_afn;
use crate::names::Address;
use crate::refusal::{EnvelopeRefusal, EnvelopeWhy, refused};
use crate::texts::{Body, Envelope};

/// The envelope that a text is of, or the text's first bad place, counted from 0, with what is wrong
/// there (this project's profile). The rules are tried in this order, L being the text's length:
///
/// - the head, places 0 to 8 from the left: `TooShort` at L where the text ends, else `Slash`, `Address`
///   or `Dot` at the first wrong character;
/// - the letters at 9 to 11: `TooShort` at L where the text ends, `Imi` at 9 where they are neither `ADS`
///   nor `AFN`;
/// - for ADS the registration, places 12 to 18 from the left: `TooShort` at L or `Registration` at the
///   first character that isn't allowed there, or at 18 where all seven are dots; then `Hex` at the first
///   of the places 19 to 532 that is there and is no digit; then `TooLong` at 533, `TooShort` at L below
///   25, `Hex` at L where a digit of a pair is missing;
/// - for AFN `TooShort` at L below 17, `TooLong` at 271, `Character` at the first of the characters from
///   12 on that isn't from 20 to 7E hexadecimal, `Hex` at the first of the last four that is no digit;
/// - `Check` at L - 4 where the digits aren't those of the code that is due.
pub fn unseal(text: &[u8]) -> Result<Envelope, EnvelopeRefusal>
    ensures found { IfOk result (λ e. IsEnvelopeText e text.now) }
    ensures right { (e : Envelope) → IsEnvelopeText e text.now → result ≡ Ok e }
    ensures none { OnErr result ((e : Envelope) → IsEnvelopeText e text.now → ⊥) }
    ensures fault { IfErr result (λ r. IsFirstEnvelopeFault text.now r) }
    ensures first { (r : EnvelopeRefusal) → IsFirstEnvelopeFault text.now r → result ≡ Err r }
{
    read_envelope(text)
}

/// The envelope that a text is of, or the text's first bad place.
fn read_envelope(text: &[u8]) -> Result<Envelope, EnvelopeRefusal>
    ensures found { IfOk result (λ e. IsEnvelopeText e text.now) }
    ensures fault { IfErr result (λ r. IsFirstEnvelopeFault text.now r) }
{
    let address = read_head(text)?;
    let body = read_body(text)?;
    Ok(Envelope { address, body })
}

/// The body behind a text's head, or the first bad place from the letters on.
fn read_body(text: &[u8]) -> Result<Body, EnvelopeRefusal>
    ensures forms { IfOk result (λ b. HasItsForms b × IsTrue (is_well_formed b)) }
    ensures spelled { IfOk result (λ b. drop 9 text.now
        ≡ written_body b ++ four_digits (check_of (covered_octets b))) }
    ensures fault { IfErr result (λ r. (IsImiFault OrElse IsBodyFault) text.now r) }
{
    match read_letters(text)? {
        Application::Ads => read_ads(text),
        Application::Afn => read_afn(text),
    }
}

/// The address in a text's head, or the head's first bad place.
fn read_head(text: &[u8]) -> Result<Address, EnvelopeRefusal>
    ensures value { IfOk result (λ a.
        IsAddress a × (take 9 text.now ≡ codes "/" ++ a ++ codes ".")) }
    ensures fault { IfErr result (λ r. IsHeadFault text.now r) }
    ensures passed { OnOk result ((r : EnvelopeRefusal) → IsHeadFault text.now r → ⊥) }
{
    check_head(text)?;
    Ok(Address::from_seven([
        text[1], text[2], text[3], text[4], text[5], text[6], text[7],
    ]))
}

/// Tests places 0 to 8 from the left.
fn check_head(text: &[u8]) -> Result<(), EnvelopeRefusal>
    ensures there { OnOk result (9 ≤ length text.now) }
    ensures right { OnOk result (AreRight (is_right_in_head text.now) 0 9) }
    ensures fault { IfErr result (λ r. IsHeadFault text.now r) }
{
    for place in 0..9u32 {
        let Some(character) = text.get(place as usize) else {
            return Err(refused(place, EnvelopeWhy::TooShort));
        };
        if !is_right_at(place, *character) {
            return Err(refused(place, why_at(place)));
        }
    }
    Ok(())
}

/// Whether the character may stand at this place of the head.
fn is_right_at(place: u32, character: u8) -> bool
    ensures { result ≡ is_head_character place character }
{
    match place {
        0 => character == b'/',
        8 => character == b'.',
        _ => character.is_ascii_uppercase() || character.is_ascii_digit(),
    }
}

/// The cause of a wrong character at this place of the head.
fn why_at(place: u32) -> EnvelopeWhy
    ensures { result ≡ why_in_head place }
{
    match place {
        0 => EnvelopeWhy::Slash,
        8 => EnvelopeWhy::Dot,
        _ => EnvelopeWhy::Address,
    }
}

/// The application that a text is for.
#[derive(Clone, Copy)]
enum Application {
    Ads,
    Afn,
}

/// The application whose letters stand at 9 to 11, or the first bad place of the letters.
fn read_letters(text: &[u8]) -> Result<Application, EnvelopeRefusal>
    ensures ads { result ≡ Ok Application.Ads → IsFor (codes "ADS") text.now }
    ensures afn { result ≡ Ok Application.Afn → IsFor (codes "AFN") text.now }
    ensures there { OnOk result (12 ≤ length text.now) }
    ensures fault { IfErr result (λ r. IsImiFault text.now r) }
    ensures passed { OnOk result ((r : EnvelopeRefusal) → IsImiFault text.now r → ⊥) }
{
    if text.len() < 12 {
        return Err(refused(text.len() as u32, EnvelopeWhy::TooShort));
    }
    match [text[9], text[10], text[11]] {
        [b'A', b'D', b'S'] => Ok(Application::Ads),
        [b'A', b'F', b'N'] => Ok(Application::Afn),
        _ => Err(refused(9, EnvelopeWhy::Imi)),
    }
}
