//! Laws of this crate's definitions: each is the contract of a function with an empty body.

ghost use Rattle.contract_table.specs.Laws.{DueItemsCanBeSent, EachLinkHasItsItems, FewItemsAreDue, ItemsStandByRisingLink, MessagesSeenAlikeAreEqual, RepeatIsEquality};

/// The contract rules see all of a message: two decoded messages that they see as one are one. So a repeat, which they find
/// among plain data, is equality of the decoded messages: a request is a repeat exactly where it equals the one in force.
pub fn messages_are_seen_whole()
    ensures one { MessagesSeenAlikeAreEqual }
    ensures repeat { RepeatIsEquality }
{}

/// What is due at an act on all links is, for each of them, what the contract rules make due on it, by rising link. At a
/// message of a link these are at most two items, at a payload of it that could not be read at most one; at a sample at most
/// four on each link, at a tick two, at a crew act one.
pub fn each_link_has_its_items()
    ensures items { EachLinkHasItsItems }
    ensures rising { ItemsStandByRisingLink }
    ensures few { FewItemsAreDue }
{}

/// Whatever is due can be sent: a negative acknowledgement has a reason from 1 to 13, and an octet other than 0 only where its
/// reason names one, and a report has one of the tags 7, 9, 10, 18, 19 and 20, with a flag for each of six groups.
pub fn due_items_can_be_sent()
    ensures { DueItemsCanBeSent }
{}
