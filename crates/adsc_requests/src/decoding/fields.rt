//! The data of groups, each read behind its tag.

ghost use Rattle.std.specs.Prelude.{◌≡◌, ◌<◌, ◌∷◌, [], IfOk, IsTrue, FitsSigned};
ghost use Rattle.adsc_requests.specs.Contents.{single, octet_8, octets_16, range_octets, intent_octets};
ghost use Rattle.adsc_requests.specs.Reading.{Gives, octet_at, data_at};
ghost use Rattle.adsc_requests.specs.Tables.{is_modulus_tag, signed_16};
ghost use Rattle.std.specs.Int.{w16};
ghost use Rattle.adsc_requests.specs.Watching.{is_not_zero};

use crate::decoding::stop::Stop;
use crate::message::{Intent, Range};
use crate::reason::{LATERAL_0, NOT_ENOUGH_DATA, PROJECTION_0, RANGE_NOT_ORDERED, VERTICAL_RATE_0};

/// The number of a message.
#[tactic(auto, unfolding(crate::specs::Reading::octet_at))]
pub(crate) fn read_number(octets: &[u8]) -> Result<(u8, &[u8]), Stop>
    ensures { Gives (λ x. (x.0, x.1.now)) result (octet_at 0 octets.now) }
{
    match octets {
        [] => Err(Stop {
            left: 0,
            reason: NOT_ENOUGH_DATA,
            number: 0,
        }),
        [number, rest @ ..] => Ok((*number, rest)),
    }
}

/// The reporting interval as sent.
#[tactic(auto, unfolding(crate::specs::Reading::data_at, crate::specs::Tables::data_size, crate::specs::Tables::field_size, crate::specs::Tables::value_reason))]
pub(crate) fn read_interval(number: u8, octets: &[u8]) -> Result<(u8, &[u8]), Stop>
    ensures { Gives (λ x. (single x.0, x.1.now)) result (data_at 11 number octets.now) }
{
    match octets {
        [] => Err(Stop {
            left: 0,
            reason: NOT_ENOUGH_DATA,
            number,
        }),
        [octet, rest @ ..] => Ok((*octet, rest)),
    }
}

/// The lateral deviation threshold.
#[tactic(auto, unfolding(crate::specs::Reading::data_at, crate::specs::Tables::data_size, crate::specs::Tables::field_size, crate::specs::Tables::value_reason))]
pub(crate) fn read_lateral(number: u8, octets: &[u8]) -> Result<(u8, &[u8]), Stop>
    ensures data { Gives (λ x. (single x.0, x.1.now)) result (data_at 10 number octets.now) }
    ensures above_0 { IfOk result (λ x. 0 < x.0) }
{
    match octets {
        [] => Err(Stop {
            left: 0,
            reason: NOT_ENOUGH_DATA,
            number,
        }),
        [0, ..] => Err(Stop {
            left: octets.len(),
            reason: LATERAL_0,
            number,
        }),
        [threshold, rest @ ..] => Ok((*threshold, rest)),
    }
}

/// The modulus of one of the groups 12 to 17.
#[tactic(auto, unfolding(crate::specs::Reading::data_at, crate::specs::Tables::data_size, crate::specs::Tables::field_size, crate::specs::Tables::is_modulus_tag, crate::specs::Tables::value_reason))]
pub(crate) fn read_modulus(tag: u8, number: u8, octets: &[u8]) -> Result<(u8, &[u8]), Stop>
    requires { IsTrue (is_modulus_tag tag) }
    ensures { Gives (λ x. (single x.0, x.1.now)) result (data_at tag number octets.now) }
{
    match octets {
        [] => Err(Stop {
            left: 0,
            reason: NOT_ENOUGH_DATA,
            number,
        }),
        [octet, rest @ ..] => Ok((*octet, rest)),
    }
}

/// The vertical rate threshold.
#[tactic(auto, unfolding(crate::specs::Reading::data_at, crate::specs::Tables::data_size, crate::specs::Tables::field_size, crate::specs::Tables::value_reason))]
pub(crate) fn read_vrate(number: u8, octets: &[u8]) -> Result<(i8, &[u8]), Stop>
    ensures data { Gives (λ x. (octet_8 x.0, x.1.now)) result (data_at 18 number octets.now) }
    ensures not_0 { IfOk result (λ x. IsTrue (is_not_zero x.0)) }
{
    match octets {
        [] => Err(Stop {
            left: 0,
            reason: NOT_ENOUGH_DATA,
            number,
        }),
        [0, ..] => Err(Stop {
            left: octets.len(),
            reason: VERTICAL_RATE_0,
            number,
        }),
        [threshold, rest @ ..] => Ok((threshold.cast_signed(), rest)),
    }
}

/// An altitude in 4 ft, from its two octets.
fn altitude(high: u8, low: u8) -> i32
    ensures octets { octets_16 result ≡ high ∷ low ∷ [] }
    ensures value { result ≡ signed_16 (high ∷ low ∷ []) }
    ensures fits { FitsSigned w16 result }
{
    i32::from(i16::from_be_bytes([high, low]))
}

/// The altitude range: the ceiling, then the floor.
#[tactic(auto, unfolding(crate::specs::Reading::data_at, crate::specs::Tables::data_size, crate::specs::Tables::field_size, crate::specs::Tables::value_reason))]
pub(crate) fn read_range(number: u8, octets: &[u8]) -> Result<(Range, &[u8]), Stop>
    ensures { Gives (λ x. (range_octets x.0, x.1.now)) result (data_at 19 number octets.now) }
{
    let [c, d, e, f, rest @ ..] = octets else {
        return Err(Stop {
            left: octets.len() % 2,
            reason: NOT_ENOUGH_DATA,
            number,
        });
    };
    let ceiling = altitude(*c, *d);
    let floor = altitude(*e, *f);
    if floor < ceiling {
        Ok((Range { ceiling, floor }, rest))
    } else {
        Err(Stop {
            left: octets.len() - 2,
            reason: RANGE_NOT_ORDERED,
            number,
        })
    }
}

/// The aircraft intent: the modulus, then the minutes.
#[tactic(auto, unfolding(crate::specs::Reading::data_at, crate::specs::Tables::data_size, crate::specs::Tables::field_size, crate::specs::Tables::value_reason))]
pub(crate) fn read_intent(number: u8, octets: &[u8]) -> Result<(Intent, &[u8]), Stop>
    ensures { Gives (λ x. (intent_octets x.0, x.1.now)) result (data_at 21 number octets.now) }
{
    match octets {
        [] | [_] => Err(Stop {
            left: 0,
            reason: NOT_ENOUGH_DATA,
            number,
        }),
        [_, 0, ..] => Err(Stop {
            left: octets.len() - 1,
            reason: PROJECTION_0,
            number,
        }),
        [modulus, minutes, rest @ ..] => Ok((
            Intent {
                modulus: *modulus,
                minutes: *minutes,
            },
            rest,
        )),
    }
}
