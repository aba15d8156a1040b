//! What is due at an act.

ghost use Rattle.std.specs.Prelude.{◌≡◌, ◌+◌, ◌<◌, ◌≤◌, [], ◌∷◌, ◌++◌};
ghost use Rattle.arrayvec.specs.ArrayVec.{array_vec_len};
ghost use Rattle.contract_table.specs.Events.{events_of};
ghost use Rattle.contract_table.specs.Dues.{rules_item, dues_in, on_link};

use crate::tags::{LATERAL_EVENT, RANGE_EVENT, VERTICAL_RATE_EVENT, WAYPOINT_EVENT};
use arrayvec::ArrayVec;
use due_event::Fired;

/// An item of a downlink that is due, without the flight data of a report (RTCA DO-258A / EUROCAE ED-100A).
#[derive(Clone, Copy, Debug, PartialEq, Eq)]
pub enum DueItem {
    /// Acknowledgement of the request or the cancel with this number.
    Ack { n: u8 },
    /// Negative acknowledgement: the number, the reason, and the faulty octet where the reason names one, else 0.
    Nack { n: u8, reason: u8, octet: u8 },
    /// Noncompliance notification of the request with this number, which asks for aircraft intent.
    Noncompliance { n: u8 },
    /// The crew switched the emergency mode off: the number of the emergency contract in force, or 0.
    EmergencyOff { n: u8 },
    /// A report: its tag (7, 9, 10, 18, 19 or 20) and, at place `i`, whether it has the group of tag `12 + i`.
    Report { tag: u8, groups: [bool; 6] },
}

/// An item that is due on a link.
#[derive(Clone, Copy, Debug, PartialEq, Eq)]
pub struct Due {
    /// The link's place among the aircraft's links, counted from 0.
    pub link: u8,
    /// The item.
    pub item: DueItem,
}

impl Default for Due {
    /// What stands in the unused places of [`Dues`].
    fn default() -> Due {
        Due {
            link: 0,
            item: DueItem::Ack { n: 0 },
        }
    }
}

/// The items due at one act, by rising link, those of a link in the order in which they are sent.
#[derive(Debug, Drop)]
pub struct Dues {
    /// The items. At most five links are live, and a sample gives at most four items on each, any other act at most two.
    pub list: ArrayVec<Due, 24>,
}

impl Dues {
    /// No items.
    pub(crate) fn none() -> Dues
        ensures items { dues_in result ≡ [] }
        ensures len { array_vec_len result.list ≡ 0 }
    {
        Dues {
            list: ArrayVec::new(),
        }
    }

    /// Adds an item that is due on a link.
    pub(crate) fn push(&mut self, link: u8, item: DueItem)
        requires { array_vec_len self.old.list < 24 }
        ensures items { dues_in self.new ≡ dues_in self.old ++ (link, rules_item item) ∷ [] }
        ensures len { array_vec_len self.new.list ≡ array_vec_len self.old.list + 1 }
    {
        self.list.push(Due { link, item });
    }

    /// Adds the reports of the events that a sample fires on a link, by rising tag. A vertical rate event has the earth
    /// reference (tag 14), a waypoint event the predicted route (tag 13), the other two have no group.
    pub(crate) fn push_events(&mut self, link: u8, fired: Fired)
        requires { array_vec_len self.old.list + 4 ≤ 24 }
        ensures items { dues_in self.new ≡ dues_in self.old ++ on_link link (events_of fired) }
        ensures len { array_vec_len self.new.list ≤ array_vec_len self.old.list + 4 }
    {
        if fired.lateral {
            self.push(link, LATERAL_REPORT);
        }
        if fired.vrate {
            self.push(link, VERTICAL_RATE_REPORT);
        }
        if fired.range {
            self.push(link, RANGE_REPORT);
        }
        if fired.waypoint {
            self.push(link, WAYPOINT_REPORT);
        }
    }
}

/// The report of a lateral deviation event (RTCA DO-258A / EUROCAE ED-100A).
const LATERAL_REPORT: DueItem = DueItem::Report {
    tag: LATERAL_EVENT,
    groups: [false; 6],
};

/// The report of a vertical rate event, with the earth reference (RTCA DO-258A / EUROCAE ED-100A).
const VERTICAL_RATE_REPORT: DueItem = DueItem::Report {
    tag: VERTICAL_RATE_EVENT,
    groups: [false, false, true, false, false, false],
};

/// The report of an altitude range event (RTCA DO-258A / EUROCAE ED-100A).
const RANGE_REPORT: DueItem = DueItem::Report {
    tag: RANGE_EVENT,
    groups: [false; 6],
};

/// The report of a waypoint event, with the predicted route (RTCA DO-258A / EUROCAE ED-100A).
const WAYPOINT_REPORT: DueItem = DueItem::Report {
    tag: WAYPOINT_EVENT,
    groups: [false, true, false, false, false, false],
};
