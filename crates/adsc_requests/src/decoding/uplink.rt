//! Messages, and a payload of them.

ghost use Rattle.std.specs.Prelude.{◌≡◌, ◌<◌, ◌⊎◌, [], true, false, length, if◌then◌else◌};
ghost use Rattle.adsc_requests.specs.Gathered.{gathered_groups, AreAllowed};
ghost use Rattle.adsc_requests.specs.Contents.{content_of, contents_of, number_of as number_told};
ghost use Rattle.adsc_requests.specs.Reading.{Gives, stop, event_at, cancel_at, request_at, message_at, messages_at, uplink_at};
ghost use Rattle.adsc_requests.specs.Tables.{is_message_tag, is_request_tag};

use crate::decoding::fields::read_number;
use crate::decoding::gathered::Gathered;
use crate::decoding::groups::read_groups;
use crate::decoding::stop::Stop;
use crate::message::{Limits, Message, Uplink};
use crate::reason::{EMPTY_EVENT_REQUEST, NOT_ENOUGH_DATA, UNDEFINED_ERROR, UNDEFINED_TAG};
use crate::tags::{
    CANCEL, CANCEL_ALL, CANCEL_EMERGENCY, EMERGENCY, EVENT, PERIODIC, begins_message,
};
use arrayvec::ArrayVec;

/// The number of a message, 0 where it has none.
fn number_in(message: &Message) -> u8
    ensures { result ≡ number_told message.now }
{
    match *message {
        Message::CancelAll => 0,
        Message::Cancel { n } | Message::CancelEmergency { n } => n,
        Message::Periodic { n, .. } | Message::Emergency { n, .. } => n,
        Message::Event { n, .. } => n,
    }
}

fn periodic(n: u8, gathered: Gathered) -> Message
    requires { AreAllowed 7 (gathered_groups gathered) }
    ensures { content_of result
        ≡ record { tag = 7; number = n; groups = gathered_groups gathered } }
{
    Message::Periodic {
        n,
        interval: gathered.interval,
        groups: gathered.moduli,
        intent: gathered.intent,
    }
}

fn emergency(n: u8, gathered: Gathered) -> Message
    requires { AreAllowed 9 (gathered_groups gathered) }
    ensures { content_of result
        ≡ record { tag = 9; number = n; groups = gathered_groups gathered } }
{
    Message::Emergency {
        n,
        interval: gathered.interval,
        groups: gathered.moduli,
        intent: gathered.intent,
    }
}

/// An event request, unless it has no group; so many octets are left behind its groups.
#[tactic(auto, unfolding(crate::specs::Reading::event_at))]
fn event(n: u8, gathered: Gathered, left: usize) -> Result<Message, Stop>
    requires { AreAllowed 8 (gathered_groups gathered) }
    ensures { Gives content_of result (event_at n (gathered_groups gathered) left) }
{
    if gathered.watches() {
        let limits = Limits {
            lateral: gathered.lateral,
            vrate: gathered.vrate,
            range: gathered.range,
            waypoint: gathered.waypoint,
        };
        Ok(Message::Event { n, limits })
    } else {
        Err(Stop {
            left,
            reason: EMPTY_EVENT_REQUEST,
            number: n,
        })
    }
}

/// A request behind its tag.
#[tactic(auto, unfolding(crate::specs::Reading::request_at, crate::specs::Tables::is_request_tag))]
fn read_request(tag: u8, octets: &[u8]) -> Result<(Message, &[u8]), Stop>
    requires { is_request_tag tag ≡ true }
    ensures { Gives (λ x. (content_of x.0, x.1.now)) result (request_at tag octets.now) }
{
    let (number, rest) = read_number(octets)?;
    let (gathered, rest) = read_groups(tag, number, rest)?;
    match tag {
        PERIODIC => Ok((periodic(number, gathered), rest)),
        EVENT => {
            let message = event(number, gathered, rest.len())?;
            Ok((message, rest))
        }
        EMERGENCY => Ok((emergency(number, gathered), rest)),
        _ => unreachable!(),
    }
}

/// A message; the number is that of the message before it.
#[tactic(auto, unfolding(crate::specs::Reading::message_at, crate::specs::Reading::cancel_at, crate::specs::Tables::is_message_tag, crate::specs::Tables::is_request_tag))]
fn read_message(before: u8, octets: &[u8]) -> Result<(Message, &[u8]), Stop>
    ensures { Gives (λ x. (content_of x.0, x.1.now)) result (message_at before octets.now) }
{
    match octets {
        [] => Err(Stop {
            left: 0,
            reason: NOT_ENOUGH_DATA,
            number: before,
        }),
        [CANCEL_ALL, rest @ ..] => Ok((Message::CancelAll, rest)),
        [CANCEL, rest @ ..] => {
            let (n, rest) = read_number(rest)?;
            Ok((Message::Cancel { n }, rest))
        }
        [CANCEL_EMERGENCY, rest @ ..] => {
            let (n, rest) = read_number(rest)?;
            Ok((Message::CancelEmergency { n }, rest))
        }
        [tag, rest @ ..] => {
            if matches!(*tag, PERIODIC | EVENT | EMERGENCY) {
                read_request(*tag, rest)
            } else {
                Err(Stop {
                    left: octets.len(),
                    reason: UNDEFINED_TAG,
                    number: before,
                })
            }
        }
    }
}

/// What stops the reading behind four messages, of which the last has the number.
fn behind_four(tag: u8, left: usize, number: u8) -> Stop
    ensures { result ≡ stop left (if is_message_tag tag then 8 else 7) number }
{
    let reason = if begins_message(tag) {
        UNDEFINED_ERROR
    } else {
        UNDEFINED_TAG
    };
    Stop {
        left,
        reason,
        number,
    }
}

/// The messages of a payload.
pub(crate) fn read_uplink(payload: &[u8]) -> Result<Uplink, Stop>
    ensures { Gives contents_of result (uplink_at payload.now) }
{
    if payload.is_empty() {
        return Err(Stop {
            left: 0,
            reason: NOT_ENOUGH_DATA,
            number: 0,
        });
    }
    let mut messages = ArrayVec::new();
    let mut number = 0;
    let mut rest = payload;
    for _ in 0..4u8 {
        if rest.is_empty() {
            break;
        }
        let (message, behind) = read_message(number, rest)?;
        number = number_in(&message);
        messages.push(message);
        rest = behind;
    }
    match rest {
        [] => Ok(Uplink { messages }),
        [tag, ..] => Err(behind_four(*tag, rest.len(), number)),
    }
}
