//! How many fields a line has.

ghost use Rattle.std.specs.Prelude.{IsTrue, ◌↔◌};
ghost use Rattle.net_script.specs.Counts.{HasCount};

use crate::letter::Letter;
use crate::limits::{AIRCRAFT_FIELDS, MAX_ADDRESSES, SAMPLE_FIELDS};

/// Whether a line of this letter may have so many fields, its letter counted.
pub(crate) fn has_count(letter: Letter, count: usize) -> bool
    ensures { IsTrue result ↔ HasCount letter count }
{
    match letter {
        Letter::Aircraft => AIRCRAFT_FIELDS <= count && count <= AIRCRAFT_FIELDS + 1,
        Letter::Ground => 2 <= count && count <= MAX_ADDRESSES + 1,
        Letter::Sample => count == SAMPLE_FIELDS,
        Letter::Time | Letter::Emergency | Letter::Logon => count == 2,
        Letter::Uplink => 2 <= count,
        Letter::Request | Letter::Cancel | Letter::Bring | Letter::Receive => count == 3,
    }
}
