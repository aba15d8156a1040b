//! Numbers of bounded range, digit by digit.
ghost use Rattle.std.specs.Prelude.{◌≡◌, ◌≤◌, IfOk};
ghost use Rattle.afn_logon.specs.Reading.{Gives, digit_reading, digits_reading, value_of};

use crate::unread::{Mismatch, Unread};

/// A digit of a number: how much a one counts at its place, and its greatest value.
#[derive(Clone, Copy)]
pub(crate) struct Digit {
    pub(crate) weight: u32,
    pub(crate) greatest: u8,
}

/// An airframe's address: six hexadecimal digits.
pub(crate) const AIRFRAME: [Digit; 6] = [
    Digit {
        weight: 0x10_0000,
        greatest: 15,
    },
    Digit {
        weight: 0x1_0000,
        greatest: 15,
    },
    Digit {
        weight: 0x1000,
        greatest: 15,
    },
    Digit {
        weight: 0x100,
        greatest: 15,
    },
    Digit {
        weight: 0x10,
        greatest: 15,
    },
    Digit {
        weight: 1,
        greatest: 15,
    },
];

/// A time of day in seconds: hours, minutes and seconds, two decimal digits each.
pub(crate) const CLOCK: [Digit; 6] = [
    Digit {
        weight: 36_000,
        greatest: 9,
    },
    Digit {
        weight: 3_600,
        greatest: 9,
    },
    Digit {
        weight: 600,
        greatest: 5,
    },
    Digit {
        weight: 60,
        greatest: 9,
    },
    Digit {
        weight: 10,
        greatest: 5,
    },
    Digit {
        weight: 1,
        greatest: 9,
    },
];

/// A latitude in tenths of a minute: two digits of degrees, two of minutes, and the tenth.
pub(crate) const LATITUDE: [Digit; 5] = [
    Digit {
        weight: 6_000,
        greatest: 9,
    },
    Digit {
        weight: 600,
        greatest: 9,
    },
    Digit {
        weight: 100,
        greatest: 5,
    },
    Digit {
        weight: 10,
        greatest: 9,
    },
    Digit {
        weight: 1,
        greatest: 9,
    },
];

/// A longitude in tenths of a minute: three digits of degrees, two of minutes, and the tenth.
pub(crate) const LONGITUDE: [Digit; 6] = [
    Digit {
        weight: 60_000,
        greatest: 9,
    },
    Digit {
        weight: 6_000,
        greatest: 9,
    },
    Digit {
        weight: 600,
        greatest: 9,
    },
    Digit {
        weight: 100,
        greatest: 5,
    },
    Digit {
        weight: 10,
        greatest: 9,
    },
    Digit {
        weight: 1,
        greatest: 9,
    },
];

/// The number of an application in a contact.
pub(crate) const TWO_DIGITS: [Digit; 2] = [
    Digit {
        weight: 10,
        greatest: 9,
    },
    Digit {
        weight: 1,
        greatest: 9,
    },
];

/// The number of an application in an answer, and the answer's code.
pub(crate) const ONE_DIGIT: [Digit; 1] = [Digit {
    weight: 1,
    greatest: 9,
}];

/// Reads a number that isn't above a limit. The mismatch is at the first digit with which no such
/// number goes on.
pub(crate) fn read_number(
    unread: &mut Unread,
    digits: &[Digit],
    limit: u32,
) -> Result<u32, Mismatch>
    ensures gives { Gives (λ n. n) result unread.new
        (digits_reading digits.now limit 0 unread.old) }
    ensures bound { IfOk result (λ n. n ≤ limit) }
{
    let mut number = 0;
    for digit in digits {
        number = read_digit(unread, *digit, limit, number)?;
    }
    Ok(number)
}

/// Reads the next digit of a number that isn't above a limit.
#[tactic(auto, unfolding(crate::specs::Reading::digit_reading))]
fn read_digit(unread: &mut Unread, digit: Digit, limit: u32, so_far: u32) -> Result<u32, Mismatch>
    ensures gives { Gives (λ n. n) result unread.new (digit_reading digit limit so_far unread.old) }
    ensures bound { IfOk result (λ n. n ≤ limit) }
{
    let left = unread.mismatch();
    let character = unread.first()?;
    let Some(value) = value_of(character) else {
        return Err(left);
    };
    let number = so_far as u64 + value as u64 * digit.weight as u64;
    if value > digit.greatest || number > limit as u64 {
        return Err(left);
    }
    Ok(number as u32)
}

/// The value of a digit, 0 to 9 and A to F.
fn value_of(character: u8) -> Option<u8>
    ensures { result ≡ value_of character }
{
    match character {
        b'0'..=b'9' => Some(character - b'0'),
        b'A'..=b'F' => Some(character - b'A' + 10),
        _ => None,
    }
}
