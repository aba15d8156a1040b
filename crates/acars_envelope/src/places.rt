//! Hexadecimal digits at places of a text, and the check that ends it.
ghost use Rattle.std.specs.Prelude.{◌≡◌, ℕ, ◌-◌, ◌≤◌, length, drop, IfErr, OnOk};
ghost use Rattle.std.specs.List.{AllPass};
ghost use Rattle.acars_envelope.specs.declared.refusal.EnvelopeWhy.TheVariants.{Hex};
ghost use Rattle.acars_envelope.specs.Faults.{AreRight, IsFirstWrong, IsWrongCheck, is_capital_digit, is_right_digit};
ghost use Rattle.acars_envelope.specs.Texts.{four_digits};

use crate::decoding::{decode, is_capital_digit};
use crate::refusal::{EnvelopeRefusal, EnvelopeWhy, refused};

/// Tests that hexadecimal digits stand from one place up to another.
pub(crate) fn check_digits(text: &[u8], from: usize, to: usize) -> Result<(), EnvelopeRefusal>
    requires ordered { from ≤ to }
    requires there { to ≤ length text.now }
    requires short { to ≤ 533 }
    ensures right { OnOk result (AreRight (is_right_digit text.now) from to) }
    ensures fault { IfErr result (λ r. IsFirstWrong (is_right_digit text.now) Hex from to r) }
{
    for place in from..to {
        if !is_capital_digit(text[place]) {
            return Err(refused(place as u32, EnvelopeWhy::Hex));
        }
    }
    Ok(())
}

/// Tests that a text's last four digits are those of the code that is due.
pub(crate) fn check_last_digits(text: &[u8], due: u16) -> Result<(), EnvelopeRefusal>
    requires there { 4 ≤ length text.now }
    requires short { length text.now ≤ 533 }
    requires digits { AreRight (is_right_digit text.now) (length text.now - 4) (length text.now) }
    ensures right { OnOk result (drop (length text.now - 4) text.now ≡ four_digits due) }
    ensures fault { IfErr result (λ r. IsWrongCheck text.now due r) }
{
    let place = text.len() - 4;
    let found = code_of(&text[place..]);
    if found != due {
        return Err(refused(place as u32, EnvelopeWhy::Check { found, due }));
    }
    Ok(())
}

/// The code that four digits spell.
fn code_of(digits: &[u8]) -> u16
    requires four { length digits.now ≡ 4 }
    requires capital { AllPass is_capital_digit digits.now }
    ensures { digits.now ≡ four_digits result }
{
    let mut octets = [0u8; 2];
    decode(digits, &mut octets);
    u16::from_be_bytes(octets)
}
