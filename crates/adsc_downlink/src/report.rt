//! A report of where the aircraft is, and of what it was asked for besides.

ghost use Rattle.std.specs.Prelude.{◌≡◌, ◌+◌, ◌<◌, ◌≤◌, [], ◌∷◌, ◌++◌, IsTrue};
ghost use Rattle.arrayvec.specs.ArrayVec.{array_vec_len};
ghost use Rattle.adsc_downlink.specs.Codes.{is_report_tag};

use adsc_groups::{Basic, Group};
use arrayvec::ArrayVec;

/// A group in the list of a report: a list of fixed capacity asks for a default, and a `Group` has
/// none.
#[derive(Clone, Copy, Debug, PartialEq, Eq)]
pub struct ReportGroup(pub Group);

/// A report. Its groups may stand in any order and several times; an aircraft sends each at most
/// once, by rising tag.
///
/// Source: RTCA DO-258A / EUROCAE ED-100A, ARINC 745 for what a report is; the layout of its groups is
/// this project's profile.
#[derive(Debug, PartialEq, Eq, Drop)]
pub struct Report {
    /// What the report answers: basic 7, emergency 9, lateral event 10, vertical rate event 18,
    /// altitude event 19, waypoint event 20.
    pub tag: u8,
    /// Where the aircraft is, and when.
    pub basic: Basic,
    /// What else it reports, up to eight groups.
    pub groups: ArrayVec<ReportGroup, 8>,
    ghost tag_known: { IsTrue (is_report_tag tag) },
    ghost few: { array_vec_len groups ≤ 8 },
}

impl Report {
    /// A report without groups.
    pub fn new(tag: u8, basic: Basic) -> Report
        requires { IsTrue (is_report_tag tag) }
        ensures tag { result.tag ≡ tag }
        ensures basic { result.basic ≡ basic }
        ensures groups { result.groups.items ≡ [] }
    {
        Report {
            tag,
            basic,
            groups: ArrayVec::new(),
        }
    }

    /// Adds a group behind the others. There are fewer than eight.
    pub fn push(&mut self, group: Group)
        requires { array_vec_len self.old.groups < 8 }
        ensures tag { self.new.tag ≡ self.old.tag }
        ensures basic { self.new.basic ≡ self.old.basic }
        ensures groups { self.new.groups.items
            ≡ self.old.groups.items ++ record { 0 = group } ∷ [] }
    {
        self.groups.push(ReportGroup(group));
    }
}
