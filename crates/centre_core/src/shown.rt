//! Where a centre's request of a kind stands.

ghost use Rattle.std.specs.Prelude.{◌≡◌};
ghost use Rattle.centre_core.specs.Tables.{number_pending as pending_of, number_cancelling as cancelling_of, mode_cancel_number, is_number, request_to_cancel};
ghost use Rattle.centre_core.specs.Steps.{row_answered};

use crate::answer::AnswerKind;
use crate::number::number_of;
use adsc_requests::Message;

/// What a centre shows of a kind of contract: where its last request of this kind stands, the
/// request as it was sent, with its number.
///
/// What is shown comes from what the centre heard. The aircraft may stand elsewhere while messages
/// are on their way, lost, or brought late.
#[derive(Clone, Copy, Debug, PartialEq, Eq)]
pub enum Shown {
    /// Nothing was asked for, all was cancelled, or the cancel of the last request was answered.
    Nothing,
    /// The request was sent and not answered yet.
    Pending(Message),
    /// The request was acknowledged.
    Confirmed(Message),
    /// The request was answered by a noncompliance: the aircraft grants it in part.
    Partial(Message),
    /// The request was answered by a negative acknowledgement with this reason, 1 to 13.
    Refused(Message, u8),
    /// A cancel of the request was sent and not answered yet.
    Cancelling(Message),
}

impl Shown {
    /// The number under which the row is pending, if it is.
    pub(crate) fn number_pending(&self) -> Option<u8>
        ensures { result ≡ pending_of self.now }
    {
        match self {
            Shown::Pending(request) => Some(number_of(request)),
            _ => None,
        }
    }

    /// Whether the row is pending under this number.
    pub(crate) fn is_pending_under(&self, n: u8) -> bool
        ensures { result ≡ is_number n (pending_of self.now) }
    {
        match self {
            Shown::Pending(request) => number_of(request) == n,
            _ => false,
        }
    }

    /// Whether the row is cancelling under this number.
    pub(crate) fn is_cancelling_under(&self, n: u8) -> bool
        ensures { result ≡ is_number n (cancelling_of self.now) }
    {
        match self {
            Shown::Cancelling(request) => number_of(request) == n,
            _ => false,
        }
    }

    /// The row when it takes an answer of its number.
    pub(crate) fn answered(&self, answer: AnswerKind) -> Shown
        ensures { result ≡ row_answered answer self.now }
    {
        match self {
            Shown::Pending(request) => match answer {
                AnswerKind::Acknowledgement => Shown::Confirmed(*request),
                AnswerKind::Noncompliance => Shown::Partial(*request),
                AnswerKind::NegativeAcknowledgement(reason) => Shown::Refused(*request, reason),
            },
            Shown::Cancelling(_) => Shown::Nothing,
            _ => *self,
        }
    }

    /// The request that a cancel would end, if there is one.
    pub(crate) fn cancellable(&self) -> Option<Message>
        ensures { result ≡ request_to_cancel self.now }
    {
        match self {
            Shown::Pending(request) | Shown::Confirmed(request) | Shown::Partial(request) => {
                Some(*request)
            }
            _ => None,
        }
    }

    /// The number that a cancel of emergency mode bears, where this is the emergency row.
    pub(crate) fn mode_cancel_number(&self) -> u8
        ensures { result ≡ mode_cancel_number self.now }
    {
        match self {
            Shown::Confirmed(request) | Shown::Partial(request) => number_of(request),
            _ => 0,
        }
    }
}
