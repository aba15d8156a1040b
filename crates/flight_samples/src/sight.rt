//! A sample, read in one pass over its text.
//!
//! Nearly all sample lines are right, and nearly all rows are those of their text. So the row tells how long each column is, and the
//! text what it says: a number has no comma, and one follows, so the column is seen to end there. Where anything is otherwise
//! nothing is said of the text, and it is read column by column, as `row` does.

ghost use Rattle.std.specs.Prelude.{◌≡◌, ◌^◌, ◌<◌, ◌≤◌, ◌++◌, ◌+◌, ℕ, IfSome, List, length, negsuc};
ghost use Rattle.std.specs.Str.Parse.{AllDigits, digits_value};
ghost use Rattle.flight_samples.specs.Columns.{IsIn};
ghost use Rattle.flight_samples.specs.Decimals.{IsNaturalText, IsNumberText};
ghost use Rattle.flight_samples.specs.SampleText.{AreSampleValues, columns_of, column_count, range_at};
ghost use Rattle.flight_samples.specs.Samples.{values_of};

use crate::columns::{COLUMN_COUNT, limits_at};
use crate::row::{field_at, sample_of};
use crate::sample::Sample;
use csv::ByteRecord;

/// The longest text of digits that is read in one pass; each bound of a column has fewer digits.
const MOST_DIGITS: usize = 8;

/// The sample of the text, where its columns are as long as the fields of the row.
pub(crate) fn sample_seen(row: &ByteRecord, text: &[u8]) -> Option<Sample>
    ensures { IfSome result (λ sample. AreSampleValues (columns_of text.now) (values_of sample)) }
{
    Some(sample_of(values_seen(row, text)?))
}

/// The values of the text, where its columns are as long as the fields of the row.
fn values_seen(row: &ByteRecord, text: &[u8]) -> Option<[i32; COLUMN_COUNT]>
    ensures { IfSome result (AreSampleValues (columns_of text.now)) }
{
    let mut values = [0; COLUMN_COUNT];
    let mut rest = text;
    for place in 0..COLUMN_COUNT {
        let (value, behind) = column_seen(field_at(row, place).len(), place, rest)?;
        values[place] = value;
        match behind.split_first() {
            Some((b',', more)) => rest = more,
            Some(_) => return None,
            None if place + 1 == COLUMN_COUNT => return Some(values),
            None => return None,
        }
    }
    None
}

/// The value of the column at this place, where the text begins with one of this length, and what stands behind it.
#[inline(always)]
fn column_seen(length: usize, place: usize, text: &[u8]) -> Option<(i32, &[u8])>
    requires { place < column_count }
    ensures { IfSome result (λ seen. (column : List ℕ) × (text.now ≡ column ++ seen.1.now)
        × IsNumberText (range_at place).low seen.0 column × IsIn (range_at place) seen.0) }
{
    if text.len() < length {
        return None;
    }
    let (column, behind) = text.split_at(length);
    let limits = limits_at(place);
    let value = number_seen(column, limits.low)?;
    if value < limits.low || limits.high < value {
        return None;
    }
    Some((value, behind))
}

/// The number of a column in the form that numbers from `low` on have.
#[inline(always)]
fn number_seen(column: &[u8], low: i32) -> Option<i32>
    ensures { IfSome result (λ z. IsNumberText low z column.now) }
{
    match column {
        [b'-', digits @ ..] if low < 0 => negative_seen(digits),
        _ => Some(natural_seen(column)? as i32),
    }
}

/// The number below 0 whose text is these digits after a `-`.
#[inline(always)]
fn negative_seen(digits: &[u8]) -> Option<i32>
    ensures { IfSome result (λ z. (n : ℕ) × (z ≡ negsuc n) × IsNaturalText (n + 1) digits.now) }
{
    match natural_seen(digits)? {
        0 => None,
        value => Some(-(value as i32)),
    }
}

/// The natural number of a text of at most eight digits.
#[inline(always)]
fn natural_seen(text: &[u8]) -> Option<u32>
    ensures number { IfSome result (λ n. IsNaturalText n text.now) }
    ensures small { IfSome result (λ n. n < 10 ^ 8) }
{
    if let [] | [b'0', _, ..] = text {
        return None;
    }
    if text.len() > MOST_DIGITS {
        return None;
    }
    digits_seen(text)
}

/// The number that at most eight digits write.
#[inline(always)]
fn digits_seen(digits: &[u8]) -> Option<u32>
    requires { length digits.now ≤ 8 }
    ensures number { IfSome result (λ n. AllDigits 10 digits.now × (n ≡ digits_value 10 digits.now)) }
    ensures small { IfSome result (λ n. n < 10 ^ 8) }
{
    let mut value = 0u32;
    for place in 0..digits.len() {
        let digit = digits[place];
        if !digit.is_ascii_digit() {
            return None;
        }
        value = value * 10 + u32::from(digit - b'0');
    }
    Some(value)
}
