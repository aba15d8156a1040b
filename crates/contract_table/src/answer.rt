//! What is due at a message: the answer, and the report that it gives at once.

ghost use Rattle.std.specs.Prelude.{◌≡◌, ◌+◌, ◌≤◌, [], ◌∷◌, ◌++◌};
ghost use Rattle.arrayvec.specs.ArrayVec.{array_vec_len};
ghost use Rattle.contract_rules.specs.Messages.{is_request, number_of};
ghost use Rattle.contract_rules.specs.Periodic.{gives_basic_report};
ghost use Rattle.contract_rules.specs.Emergency.{gives_emergency_report};
ghost use Rattle.contract_rules.specs.LiveLinks.{Accepted};
ghost use Rattle.contract_rules.specs.Due.{NegativeAcknowledgement, Report, answer_to_request, due_of_message, item_where, octet_named};
ghost use Rattle.contract_rules.specs.Reports.{report_groups};
ghost use Rattle.contract_table.specs.Acts.{rules_fault, rules_message};
ghost use Rattle.contract_table.specs.Dues.{dues_in, on_link, rules_item};
ghost use Rattle.contract_table.specs.Verdicts.{rules_verdict};

use crate::due::{DueItem, Dues};
use crate::reporting::groups_in;
use crate::tags::{BASIC_REPORT, EMERGENCY_REPORT};
use crate::verdict::Verdict;
use adsc_requests::{Message, Refusal, reason};

/// Adds the items due on a link at a message of this verdict, where this says whether the link is in emergency mode.
pub(crate) fn push_answer(
    dues: &mut Dues,
    link: u8,
    message: &Message,
    verdict: Verdict,
    mode: bool,
)
    requires room { array_vec_len dues.old.list + 2 ≤ 24 }
    ensures dues { dues_in dues.new ≡ dues_in dues.old
        ++ on_link link (due_of_message (rules_verdict verdict) mode (rules_message message.now)) }
    ensures len { array_vec_len dues.new.list ≤ array_vec_len dues.old.list + 2 }
{
    match verdict {
        Verdict::Ended => {}
        Verdict::Refused { reason } => dues.push(
            link,
            DueItem::Nack {
                n: number_of(message),
                reason,
                octet: 0,
            },
        ),
        Verdict::Repeated => dues.push(link, acknowledgement(message)),
        Verdict::Accepted => {
            dues.push(link, acknowledgement(message));
            push_first_report(dues, link, message, mode);
        }
    }
}

/// The acknowledgement of a message, or the noncompliance notification where it asks for aircraft intent.
fn acknowledgement(message: &Message) -> DueItem
    ensures { rules_item result ∷ [] ≡ answer_to_request (rules_message message.now) }
{
    let n = number_of(message);
    match message {
        Message::Periodic {
            intent: Some(_),
            ..
        }
        | Message::Emergency {
            intent: Some(_),
            ..
        } => DueItem::Noncompliance { n },
        _ => DueItem::Ack { n },
    }
}

/// Adds the report that an accepted message gives at once: a demand or a periodic request a basic report, an emergency
/// request in emergency mode an emergency report, each with the groups of a first report.
fn push_first_report(dues: &mut Dues, link: u8, message: &Message, mode: bool)
    requires room { array_vec_len dues.old.list + 1 ≤ 24 }
    ensures dues { dues_in dues.new ≡ dues_in dues.old ++ on_link link (
        item_where (gives_basic_report Accepted (rules_message message.now)) (Report 7 (report_groups 0 (rules_message message.now)))
        ++ item_where (gives_emergency_report Accepted mode (rules_message message.now)) (Report 9 (report_groups 0 (rules_message message.now)))) }
    ensures len { array_vec_len dues.new.list ≤ array_vec_len dues.old.list + 1 }
{
    match message {
        Message::Periodic { groups, .. } => dues.push(
            link,
            DueItem::Report {
                tag: BASIC_REPORT,
                groups: groups_in(groups, 0),
            },
        ),
        Message::Emergency { groups, .. } if mode => dues.push(
            link,
            DueItem::Report {
                tag: EMERGENCY_REPORT,
                groups: groups_in(groups, 0),
            },
        ),
        _ => {}
    }
}

/// The number that a message bears; 0 for a cancel-all, which has none.
fn number_of(message: &Message) -> u8
    ensures { result ≡ number_of (rules_message message.now) }
{
    match message {
        Message::CancelAll => 0,
        Message::Cancel { n }
        | Message::CancelEmergency { n }
        | Message::Periodic { n, .. }
        | Message::Event { n, .. }
        | Message::Emergency { n, .. } => *n,
    }
}

/// Whether a message is a request, of whatever kind.
pub(crate) fn is_request(message: &Message) -> bool
    ensures { result ≡ is_request (rules_message message.now) }
{
    matches!(
        message,
        Message::Periodic { .. } | Message::Event { .. } | Message::Emergency { .. }
    )
}

/// The negative acknowledgement that tells a refusal: it names the faulty octet for reasons 1, 2 and 7 alone.
pub(crate) fn negative_acknowledgement(refusal: &Refusal) -> DueItem
    ensures { rules_item result ≡ NegativeAcknowledgement refusal.now.number refusal.now.reason (octet_named (rules_fault refusal.now)) }
{
    let octet = match refusal.reason {
        reason::DUPLICATE_GROUP | reason::DUPLICATE_INTERVAL | reason::UNDEFINED_TAG =>
            refusal.octet,
        _ => 0,
    };
    DueItem::Nack {
        n: refusal.number,
        reason: refusal.reason,
        octet,
    }
}
