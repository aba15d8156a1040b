//! The verdict on a message of a live link.

ghost use Rattle.std.specs.Prelude.{◌≡◌, ◌==◌, cond, is_some};
ghost use Rattle.contract_rules.specs.InForce.{is_number_in_force, repeats, is_repeat};
ghost use Rattle.contract_rules.specs.Messages.{number_of, same_limits};
ghost use Rattle.contract_rules.specs.Verdicts.{accept_where, verdict_on, verdict_on_request};
ghost use Rattle.due_event.specs.RuleTerms.{rules_limits};
ghost use Rattle.contract_table.specs.Acts.{rules_message};
ghost use Rattle.contract_table.specs.Connections.{requests_of};
ghost use Rattle.contract_table.specs.Seen.{connection_seen};
ghost use Rattle.contract_table.specs.Verdicts.{rules_verdict};

use crate::connection::Connection;
use crate::reporting::Reporting;
use adsc_requests::{Limits, Message};

/// Reason 5 of a negative acknowledgement: no such contract is in force.
const UNDEFINED_CONTRACT: u8 = 5;

/// Reason 6 of a negative acknowledgement: a contract of this number is in force.
const CONTRACT_EXISTS: u8 = 6;

/// The verdict on a message of a link that is live, or that the message admits.
#[derive(Clone, Copy, Debug)]
pub(crate) enum Verdict {
    /// It ends the session.
    Ended,
    /// It is accepted.
    Accepted,
    /// It is refused for this reason, which a negative acknowledgement carries.
    Refused { reason: u8 },
    /// It is the request of a contract in force, and is acknowledged again.
    Repeated,
}

/// The verdict on a message of a link.
pub(crate) fn verdict_on(connection: &Connection, message: &Message) -> Verdict
    ensures { rules_verdict result ≡ verdict_on (requests_of (connection_seen connection.now))
        (is_some (connection_seen connection.now).anchor) (rules_message message.now) }
{
    match message {
        Message::CancelAll => Verdict::Ended,
        Message::Cancel { n } => accepted_where(is_number_in_force(connection, *n)),
        Message::CancelEmergency { n } => accepted_where(
            connection.mode.is_on() && *n == connection.emergency_number(),
        ),
        Message::Periodic { n, .. } | Message::Event { n, .. } | Message::Emergency { n, .. } =>
            verdict_on_request(connection, *n, message),
    }
}

/// Accepted where a test holds, else refused since no such contract is in force.
fn accepted_where(holds: bool) -> Verdict
    ensures { rules_verdict result ≡ accept_where holds }
{
    if holds {
        Verdict::Accepted
    } else {
        Verdict::Refused {
            reason: UNDEFINED_CONTRACT,
        }
    }
}

/// The verdict on a request with this number.
fn verdict_on_request(connection: &Connection, n: u8, request: &Message) -> Verdict
    requires { n ≡ number_of (rules_message request.now) }
    ensures { rules_verdict result
        ≡ verdict_on_request (requests_of (connection_seen connection.now)) (rules_message request.now) }
{
    if is_repeat(connection, request) {
        Verdict::Repeated
    } else if is_number_in_force(connection, n) {
        Verdict::Refused {
            reason: CONTRACT_EXISTS,
        }
    } else {
        Verdict::Accepted
    }
}

/// Whether a contract in force has this number.
fn is_number_in_force(connection: &Connection, n: u8) -> bool
    ensures { result ≡ is_number_in_force n (requests_of (connection_seen connection.now)) }
{
    let periodic = matches!(&connection.periodic, Some(contract) if contract.asked.n == n);
    let event = matches!(&connection.event, Some(contract) if contract.n == n);
    let emergency = matches!(&connection.emergency, Some(asked) if asked.n == n);
    periodic | event | emergency
}

/// Whether a message is the request of a contract in force, the same in every field.
fn is_repeat(connection: &Connection, message: &Message) -> bool
    ensures { result ≡ is_repeat (rules_message message.now) (requests_of (connection_seen connection.now)) }
{
    let periodic = repeats_periodic(connection, message);
    let event = repeats_event(connection, message);
    let emergency = repeats_emergency(connection, message);
    periodic | event | emergency
}

/// Whether a message is the request of the periodic contract in force.
fn repeats_periodic(connection: &Connection, message: &Message) -> bool
    ensures { result ≡ repeats (rules_message message.now) (requests_of (connection_seen connection.now)).periodic }
{
    let Some(contract) = &connection.periodic else {
        return false;
    };
    match message {
        Message::Periodic {
            n,
            interval,
            groups,
            intent,
        } => {
            Reporting {
                n: *n,
                interval: *interval,
                groups: *groups,
                intent: *intent,
            }
            .is_same(&contract.asked)
        }
        _ => false,
    }
}

/// Whether a message is the request of the event contract in force.
fn repeats_event(connection: &Connection, message: &Message) -> bool
    ensures { result ≡ repeats (rules_message message.now) (requests_of (connection_seen connection.now)).event }
{
    let Some(contract) = &connection.event else {
        return false;
    };
    match message {
        Message::Event { n, limits } => *n == contract.n
            && is_same_limits(limits, contract.watch.limits()),
        _ => false,
    }
}

/// Whether a message is the request of the emergency contract in force.
fn repeats_emergency(connection: &Connection, message: &Message) -> bool
    ensures { result ≡ repeats (rules_message message.now) (requests_of (connection_seen connection.now)).emergency }
{
    let Some(held) = &connection.emergency else {
        return false;
    };
    match message {
        Message::Emergency {
            n,
            interval,
            groups,
            intent,
        } => {
            Reporting {
                n: *n,
                interval: *interval,
                groups: *groups,
                intent: *intent,
            }
            .is_same(held)
        }
        _ => false,
    }
}

/// Whether two event requests watch the same.
fn is_same_limits(one: &Limits, other: &Limits) -> bool
    ensures { result ≡ same_limits (rules_limits one.now) (rules_limits other.now) }
{
    let lateral = one.lateral == other.lateral;
    let vrate = one.vrate == other.vrate;
    let range = one.range == other.range;
    let waypoint = one.waypoint == other.waypoint;
    lateral & vrate & range & waypoint
}
