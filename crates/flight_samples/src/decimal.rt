//! Decimal numbers, read from their texts, for samples and for the other lines of a script.
//!
//! The form is this project's profile: digits without a leading zero, and a `-` before them where the number is below 0 and the
//! range has numbers below 0. So `0` is a number, and `-0`, `+1`, `007`, an empty text and a text with spaces are none. A number
//! may be longer than any word of the machine: it is still a number, outside each range.

ghost use Rattle.std.specs.Prelude.{◌≡◌, ◌^◌, ◌<◌, ◌≤◌, ◌↔◌, ℕ, ℤ, IsTrue, IfOk, IfErr, IfSome, IfNone, min, pos, negsuc, ◌⊎◌, ◌+◌, ◌≤ℤ◌, ◌<ℤ◌};
ghost use Rattle.std.specs.Str.Parse.{AllDigits, digits_value};
ghost use Rattle.flight_samples.specs.Decimals.{AgreeWithin, IsIntegerFault, IsIntegerText, IsNaturalFault, IsNaturalForm, IsNaturalText, IsNumberText};

/// Why a text gives no number of a range. This project's profile.
#[derive(Clone, Copy, Debug, PartialEq, Eq)]
pub enum NumberFault {
    /// The text is no decimal number by the form of the range: a wrong character, no digit, a leading zero, `-0`, or a `-` where
    /// the range has no numbers below 0.
    NotNumber,
    /// The text is the decimal text of a number outside the range, however long it is.
    Range,
}

/// The value that reading stops at, above each bound of a range.
const LIMIT: u64 = 4_294_967_296;

/// The number of a text of digits without a leading zero, or `LIMIT` where it is larger.
fn natural_value(text: &[u8]) -> Option<u64>
    ensures some { IfSome result (λ v. (n : ℕ) × IsNaturalText n text.now × (v ≡ min n LIMIT)) }
    ensures none { IfNone result ((n : ℕ) → ¬ IsNaturalText n text.now) }
{
    if let [] | [b'0', _, ..] = text {
        return None;
    }
    digits_up_to_limit(text)
}

/// The number that the digits write, or `LIMIT` where it is larger; none where a byte is no digit.
fn digits_up_to_limit(text: &[u8]) -> Option<u64>
    ensures some { IfSome result (λ v. AllDigits 10 text.now × (v ≡ min (digits_value 10 text.now) LIMIT)) }
    ensures none { IfNone result (¬ AllDigits 10 text.now) }
{
    let mut value = 0;
    for byte in text {
        if !byte.is_ascii_digit() {
            return None;
        }
        value = LIMIT.min(value * 10 + u64::from(byte - b'0'));
    }
    Some(value)
}

/// Reads a natural number from `low` to `high`.
///
/// The answer is the number exactly where the text is the decimal text of a number in the range. It is `Range` exactly where the
/// text is that of a number outside, and `NotNumber` exactly where it is the text of no natural number.
pub fn read_natural(text: &[u8], low: u32, high: u32) -> Result<u32, NumberFault>
    ensures ok { IfOk result (λ n. IsNaturalText n text.now × (low ≤ n) × (n ≤ high)) }
    ensures fault { IfErr result (IsNaturalFault low high text.now) }
    ensures read { (n : ℕ) → IsNaturalText n text.now → low ≤ n → n ≤ high → result ≡ Ok n }
    ensures refused { (e : NumberFault) → IsNaturalFault low high text.now e → result ≡ Err e }
{
    let Some(value) = natural_value(text) else {
        return Err(NumberFault::NotNumber);
    };
    if value < u64::from(low) || u64::from(high) < value {
        return Err(NumberFault::Range);
    }
    Ok(value as u32)
}

/// Reads an integer from `low` to `high`. Below 0 it has a `-` first, which it may have only where `low` is below 0.
///
/// The answer is the number exactly where the text is the decimal text of a number in the range. It is `Range` exactly where the
/// text is that of a number outside, and `NotNumber` exactly where it is the text of no integer, or has a `-` where `low` is 0 or
/// more.
pub fn read_integer(text: &[u8], low: i32, high: i32) -> Result<i32, NumberFault>
    ensures ok { IfOk result (λ z. IsNumberText low z text.now × (low ≤ℤ z) × (z ≤ℤ high)) }
    ensures fault { IfErr result (IsIntegerFault low high text.now) }
    ensures read { (z : ℤ) → IsNumberText low z text.now → low ≤ℤ z → z ≤ℤ high → result ≡ Ok z }
    ensures refused { (e : NumberFault) → IsIntegerFault low high text.now e → result ≡ Err e }
{
    match number_value(text, low) {
        Some(value) => within(value, low, high),
        None => Err(NumberFault::NotNumber),
    }
}

/// The value where it is from `low` to `high`.
fn within(value: i64, low: i32, high: i32) -> Result<i32, NumberFault>
    ensures ok { IfOk result (λ z. (z ≡ value) × (low ≤ℤ value) × (value ≤ℤ high)) }
    ensures err { IfErr result (λ e. (e ≡ NumberFault.Range) × ((value <ℤ low) ⊎ (high <ℤ value))) }
{
    if value < i64::from(low) {
        return Err(NumberFault::Range);
    }
    if i64::from(high) < value {
        return Err(NumberFault::Range);
    }
    Ok(value as i32)
}

/// The number of a text in the form that numbers from `low` on have, or one past `LIMIT` or minus `LIMIT` on the same side.
fn number_value(text: &[u8], low: i32) -> Option<i64>
    ensures some { IfSome result (λ v. (z : ℤ)
        × IsNumberText low z text.now × AgreeWithin LIMIT z v) }
    ensures none { IfNone result ((z : ℤ) → ¬ IsNumberText low z text.now) }
{
    if low < 0 {
        signed_value(text)
    } else {
        unsigned_value(text)
    }
}

/// The number of a text that may have a `-`.
fn signed_value(text: &[u8]) -> Option<i64>
    ensures some { IfSome result (λ v. (z : ℤ) × IsIntegerText z text.now × AgreeWithin LIMIT z v) }
    ensures none { IfNone result ((z : ℤ) → ¬ IsIntegerText z text.now) }
{
    match text {
        [b'-', digits @ ..] => negative_value(digits),
        _ => unsigned_value(text),
    }
}

/// The number of a text without a `-`.
fn unsigned_value(text: &[u8]) -> Option<i64>
    ensures some { IfSome result (λ v. (n : ℕ)
        × IsNaturalText n text.now × AgreeWithin LIMIT (pos n) v) }
    ensures none { IfNone result ((n : ℕ) → ¬ IsNaturalText n text.now) }
{
    Some(natural_value(text)? as i64)
}

/// The number below 0 whose text is these digits after a `-`.
fn negative_value(digits: &[u8]) -> Option<i64>
    ensures some { IfSome result (λ v. (n : ℕ)
        × IsNaturalText (n + 1) digits.now × AgreeWithin LIMIT (negsuc n) v) }
    ensures none { IfNone result ((n : ℕ) → ¬ IsNaturalText (n + 1) digits.now) }
{
    match natural_value(digits)? {
        0 => None,
        value => Some(-(value as i64)),
    }
}
