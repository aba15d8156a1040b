//! Shifts that lose nothing: fields joined to one number, and taken apart again.

ghost use Rattle.std.specs.Prelude.{◌≡◌, ◌+◌, ◌*◌, ◌/◌, ◌%◌, ◌^◌, ◌<◌, ◌≤◌};

/// The number whose digits are those of `high` and then `width` digits of `low`.
pub fn joined(high: u64, low: u64, width: u8) -> u64
    requires high_fits { high < 2 ^ 32 }
    requires low_fits { low < 2 ^ width }
    requires narrow { width ≤ 32 }
    ensures { result ≡ high * 2 ^ width + low }
{
    high << width | low
}

/// What stands above the lowest `width` digits.
pub fn high_part(number: u64, width: u8) -> u64
    requires { width < 64 }
    ensures { result ≡ number / 2 ^ width }
{
    number >> width
}

/// The lowest `width` digits.
pub fn low_part(number: u64, width: u8) -> u64
    requires { width < 64 }
    ensures { result ≡ number % 2 ^ width }
{
    number & ((1 << width) - 1)
}
