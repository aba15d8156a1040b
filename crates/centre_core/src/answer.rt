//! The answers among the items of a downlink.

ghost use Rattle.std.specs.Prelude.{◌≡◌};
ghost use Rattle.adsc_downlink.specs.ItemView.{item_data};
ghost use Rattle.centre_core.specs.Answers.{answer_in as found_in};

use adsc_downlink::Item;

/// An answer to a message (RTCA DO-258A / EUROCAE ED-100A).
#[derive(Clone, Copy)]
pub struct ItemAnswer {
    /// The number of the message that is answered.
    pub number: u8,
    /// How it is answered.
    pub kind: AnswerKind,
}

/// How a message is answered.
#[derive(Clone, Copy)]
pub enum AnswerKind {
    /// It is acknowledged.
    Acknowledgement,
    /// It is granted in part.
    Noncompliance,
    /// It is refused, for this reason.
    NegativeAcknowledgement(u8),
}

/// The answer that an item is, if it is one.
pub(crate) fn answer_in(item: &Item) -> Option<ItemAnswer>
    ensures { result ≡ found_in (item_data item.now) }
{
    let (number, kind) = match item {
        Item::Ack { n } => (*n, AnswerKind::Acknowledgement),
        Item::Noncompliance { n } => (*n, AnswerKind::Noncompliance),
        Item::Nack(nack) => (nack.n, AnswerKind::NegativeAcknowledgement(nack.reason)),
        Item::EmergencyOff { .. } | Item::Report(_) => return None,
    };
    Some(ItemAnswer { number, kind })
}
