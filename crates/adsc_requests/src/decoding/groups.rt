//! The groups of a request, read behind its number.

ghost use Rattle.std.specs.Prelude.{◌≡◌, [], true, false, length, IfOk};
ghost use Rattle.adsc_requests.specs.Gathered.{gathered_groups, AreAllowed};
ghost use Rattle.adsc_requests.specs.Contents.{has_tag, group_tags};
ghost use Rattle.adsc_requests.specs.Reading.{Gives, with_data_at, group_at, groups_at};
ghost use Rattle.adsc_requests.specs.Tables.{is_request_group_tag, repeat_reason};

use crate::decoding::fields::{
    read_intent, read_interval, read_lateral, read_modulus, read_range, read_vrate,
};
use crate::decoding::gathered::Gathered;
use crate::decoding::stop::Stop;
use crate::reason::{DUPLICATE_GROUP, DUPLICATE_INTERVAL, UNDEFINED_TAG};
use crate::tags::{
    FIRST_MODULUS, INTENT, INTERVAL, LAST_MODULUS, LATERAL, RANGE, VERTICAL_RATE, WAYPOINT,
    begins_message, may_have,
};

/// Why a group is refused that was already read.
#[tactic(auto, unfolding(crate::specs::Tables::repeat_reason))]
fn reason_of_repeat(tag: u8) -> u8
    ensures { result ≡ repeat_reason tag }
{
    if tag == INTERVAL {
        DUPLICATE_INTERVAL
    } else {
        DUPLICATE_GROUP
    }
}

/// The data of a group behind its tag, with the groups that were read.
#[tactic(auto, unfolding(crate::specs::Reading::with_data_at, crate::specs::Tables::is_request_group_tag, crate::specs::Tables::is_modulus_tag))]
fn with_data(
    gathered: Gathered,
    number: u8,
    tag: u8,
    octets: &[u8],
) -> Result<(Gathered, &[u8]), Stop>
    requires known { is_request_group_tag tag ≡ true }
    requires new { has_tag tag (gathered_groups gathered) ≡ false }
    ensures { Gives (λ x. (gathered_groups x.0, x.1.now)) result
        (with_data_at tag number (gathered_groups gathered) octets.now) }
{
    match tag {
        LATERAL => {
            let (threshold, rest) = read_lateral(number, octets)?;
            Ok((gathered.with_lateral(threshold), rest))
        }
        INTERVAL => {
            let (octet, rest) = read_interval(number, octets)?;
            Ok((gathered.with_interval(octet), rest))
        }
        FIRST_MODULUS..=LAST_MODULUS => {
            let (modulus, rest) = read_modulus(tag, number, octets)?;
            Ok((gathered.with_modulus(tag, modulus), rest))
        }
        VERTICAL_RATE => {
            let (threshold, rest) = read_vrate(number, octets)?;
            Ok((gathered.with_vrate(threshold), rest))
        }
        RANGE => {
            let (range, rest) = read_range(number, octets)?;
            Ok((gathered.with_range(range), rest))
        }
        WAYPOINT => Ok((gathered.with_waypoint(), octets)),
        INTENT => {
            let (intent, rest) = read_intent(number, octets)?;
            Ok((gathered.with_intent(intent), rest))
        }
        _ => unreachable!(),
    }
}

/// A group of a message behind those that were read; its tag is read.
#[tactic(auto, using(crate::proofs::ReadingLemmas::allowed_is_group), unfolding(crate::specs::Reading::group_at))]
fn with_group(
    gathered: Gathered,
    message: u8,
    number: u8,
    tag: u8,
    octets: &[u8],
) -> Result<(Gathered, &[u8]), Stop>
    ensures { Gives (λ x. (gathered_groups x.0, x.1.now)) result
        (group_at message number (gathered_groups gathered) tag octets.now) }
{
    if !may_have(message, tag) {
        return Err(Stop {
            left: octets.len() + 1,
            reason: UNDEFINED_TAG,
            number,
        });
    }
    if gathered.has(tag) {
        return Err(Stop {
            left: octets.len() + 1,
            reason: reason_of_repeat(tag),
            number,
        });
    }
    with_data(gathered, number, tag, octets)
}

/// The groups of a message, up to the next message's tag or the end.
pub(crate) fn read_groups(message: u8, number: u8, octets: &[u8]) -> Result<(Gathered, &[u8]), Stop>
    ensures groups { Gives (λ x. (gathered_groups x.0, x.1.now)) result
        (groups_at (length octets.now) message number [] octets.now) }
    ensures allowed { IfOk result (λ x. AreAllowed message (gathered_groups x.0)) }
{
    let mut gathered = Gathered::nothing();
    let mut rest = octets;
    while let [tag, after @ ..] = rest {
        if begins_message(*tag) {
            break;
        }
        let (more, behind) = with_group(gathered, message, number, *tag, after)?;
        gathered = more;
        rest = behind;
    }
    Ok((gathered, rest))
}
