//! A live link: its contracts in force and its emergency mode.

ghost use Rattle.std.specs.Prelude.{◌≡◌, ◌+◌, ◌^◌, ◌<◌, ◌≤◌, ◌++◌, IfSome, map, option_map};
ghost use Rattle.arrayvec.specs.ArrayVec.{array_vec_len};
ghost use Rattle.contract_rules.specs.Messages.{seconds_of};
ghost use Rattle.contract_rules.specs.Reports.{crosses, groups_of, is_modulus_due};
ghost use Rattle.contract_rules.specs.Emergency.{emergency_number};
ghost use Rattle.contract_rules.specs.Due.{Report, item_where};
ghost use Rattle.due_event.specs.RuleTerms.{rules_sample};
ghost use Rattle.contract_table.specs.ConnectionDues.{series_groups, anchor_reports, due_of_ticked, due_of_crewed, due_of_moved};
ghost use Rattle.contract_table.specs.Dues.{rules_item, dues_in, on_link};
ghost use Rattle.contract_table.specs.NextConnection.{admitted, series_counted, anchor_counted, is_series_due, is_anchor_due, ticked, moved, crewed};
ghost use Rattle.contract_table.specs.Seen.{connection_seen, emergency_seen};
ghost use Rattle.contract_table.specs.Sound.{IsSound, IsSoundSeries, IsSoundMode};

use crate::due::{DueItem, Dues};
use crate::event::EventContract;
use crate::reporting::Reporting;
use crate::tags::{BASIC_REPORT, EMERGENCY_REPORT};
use due_emergency::Mode;
use due_periodic::Grid;
use flight_samples::Sample;

/// A periodic contract in force.
#[derive(Clone, Copy, Debug)]
pub(crate) struct PeriodicContract {
    /// What its request asks.
    pub asked: Reporting,
    /// The time of its acceptance, in seconds, from which its moments are counted.
    pub since: u32,
    /// How many reports it gave. This is the number of the next one, counted from 0.
    pub reports: u64,
}

/// A live link. At most one contract of each kind is in force on it.
#[derive(Debug, Drop)]
pub(crate) struct Connection {
    /// The link's place among the aircraft's links, counted from 0.
    pub link: u8,
    /// The periodic contract in force.
    pub periodic: Option<PeriodicContract>,
    /// The event contract in force.
    pub event: Option<EventContract>,
    /// What the emergency contract in force asks.
    pub emergency: Option<Reporting>,
    /// The emergency mode of the link.
    pub mode: Mode,
}

impl Default for Connection {
    /// What stands in the unused places of a list of links.
    fn default() -> Connection {
        Connection::admit(0, false, 0)
    }
}

impl PeriodicContract {
    /// Whether time from `before` to `now` crosses the grid of the contract's moments.
    fn crosses(&self, before: u32, now: u32) -> bool
        requires sound { IsSoundSeries before self.now }
        requires later { before ≤ now }
        ensures { result ≡ crosses self.now.since (seconds_of self.now.asked.interval) before now }
    {
        let mut grid = Grid::new(self.since, self.asked.seconds());
        let _passed = grid.cross(before);
        grid.cross(now)
    }

    /// The next report, which is counted.
    fn next_report(&mut self) -> DueItem
        requires { self.old.reports < 2 ^ 63 }
        ensures item { rules_item result ≡ Report 7 (map (is_modulus_due self.old.reports) self.old.asked.groups.m) }
        ensures next { self.new ≡ record self.old { reports = self.old.reports + 1 } }
    {
        let report = self.asked.report(BASIC_REPORT, self.reports);
        self.reports += 1;
        report
    }
}

impl Connection {
    /// The link at its admission, with no contract in force. It is in emergency mode where the crew's switch is on.
    pub(crate) fn admit(link: u8, crew: bool, time: u32) -> Connection
        ensures value { connection_seen result ≡ admitted link crew time }
        ensures sound { IsSound time result }
    {
        Connection {
            link,
            periodic: None,
            event: None,
            emergency: None,
            mode: Mode::admit(crew, time),
        }
    }

    /// Time moves from `before` to `now`: the periodic report or the emergency report falls due where its grid is crossed.
    pub(crate) fn tick(&mut self, before: u32, now: u32, dues: &mut Dues)
        requires later { before ≤ now }
        requires limit { now ≤ 999999999 }
        requires sound { IsSound before self.old }
        requires room { array_vec_len dues.old.list + 2 ≤ 24 }
        ensures next { connection_seen self.new ≡ ticked before now (connection_seen self.old) }
        ensures sound { IsSound now self.new }
        ensures dues { dues_in dues.new
            ≡ dues_in dues.old ++ on_link self.old.link (due_of_ticked before now (connection_seen self.old)) }
        ensures len { array_vec_len dues.new.list ≤ array_vec_len dues.old.list + 2 }
    {
        self.tick_periodic(before, now, dues);
        self.tick_emergency(before, now, dues);
    }

    /// Time moves from `before` to `now` for the periodic contract, if there is one: out of emergency mode a report is due
    /// where its grid is crossed. Periods that pass in the mode are not made up.
    fn tick_periodic(&mut self, before: u32, now: u32, dues: &mut Dues)
        requires later { before ≤ now }
        requires limit { now ≤ 999999999 }
        requires sound { IfSome self.old.periodic (IsSoundSeries before) }
        requires room { array_vec_len dues.old.list + 1 ≤ 24 }
        ensures rest { self.new ≡ record self.old { periodic = self.new.periodic } }
        ensures next { (connection_seen self.new).periodic
            ≡ option_map (series_counted (is_series_due before now (connection_seen self.old))) (connection_seen self.old).periodic }
        ensures sound { IfSome self.new.periodic (IsSoundSeries now) }
        ensures dues { dues_in dues.new ≡ dues_in dues.old ++ on_link self.old.link
            (item_where (is_series_due before now (connection_seen self.old)) (Report 7 (series_groups (connection_seen self.old).periodic))) }
        ensures len { array_vec_len dues.new.list ≤ array_vec_len dues.old.list + 1 }
    {
        if self.is_periodic_due(before, now) {
            if let Some(contract) = &mut self.periodic {
                dues.push(self.link, contract.next_report());
            }
        }
    }

    /// Whether a periodic report falls due as time moves from `before` to `now`.
    fn is_periodic_due(&self, before: u32, now: u32) -> bool
        requires later { before ≤ now }
        requires sound { IfSome self.now.periodic (IsSoundSeries before) }
        ensures { result ≡ is_series_due before now (connection_seen self.now) }
    {
        match &self.periodic {
            Some(contract) => !self.mode.is_on() && contract.crosses(before, now),
            None => false,
        }
    }

    /// Time moves to `now` for the emergency mode: a report is due in the mode, where its grid is crossed.
    fn tick_emergency(&mut self, before: u32, now: u32, dues: &mut Dues)
        requires later { before ≤ now }
        requires limit { now ≤ 999999999 }
        requires sound { IsSoundMode before self.old.emergency self.old.mode }
        requires room { array_vec_len dues.old.list + 1 ≤ 24 }
        ensures rest { self.new ≡ record self.old { mode = self.new.mode } }
        ensures next { (connection_seen self.new).anchor
            ≡ option_map (anchor_counted (is_anchor_due before now (connection_seen self.old))) (connection_seen self.old).anchor }
        ensures sound { IsSoundMode now self.new.emergency self.new.mode }
        ensures dues { dues_in dues.new ≡ dues_in dues.old ++ on_link self.old.link
            (item_where (is_anchor_due before now (connection_seen self.old))
            (Report 9 (groups_of (anchor_reports (connection_seen self.old).anchor) (connection_seen self.old).emergency))) }
        ensures len { array_vec_len dues.new.list ≤ array_vec_len dues.old.list + 1 }
    {
        if self.mode.tick(now) {
            dues.push(self.link, self.emergency_report(self.mode.reports()));
            self.mode.count_report();
        }
    }

    /// The crew switches emergency on or off: on gives an emergency report, the first of its anchor, and off an
    /// emergency-off where the link was in emergency mode.
    pub(crate) fn crew(&mut self, on: bool, time: u32, dues: &mut Dues)
        requires sound { IsSound time self.old }
        requires room { array_vec_len dues.old.list + 1 ≤ 24 }
        ensures next { connection_seen self.new ≡ crewed on time (connection_seen self.old) }
        ensures sound { IsSound time self.new }
        ensures dues { dues_in dues.new
            ≡ dues_in dues.old ++ on_link self.old.link (due_of_crewed on (connection_seen self.old)) }
        ensures len { array_vec_len dues.new.list ≤ array_vec_len dues.old.list + 1 }
    {
        let was_on = self.mode.crew(on, time);
        if on {
            self.mode.count_report();
            dues.push(self.link, self.emergency_report(0));
        } else if was_on {
            dues.push(
                self.link,
                DueItem::EmergencyOff {
                    n: self.emergency_number(),
                },
            );
        }
    }

    /// A new sample, and the one before it: the events of the event contract that it fires fall due, by rising tag.
    pub(crate) fn see(&mut self, before: &Sample, now: &Sample, dues: &mut Dues)
        requires room { array_vec_len dues.old.list + 4 ≤ 24 }
        ensures rest { self.new ≡ record self.old { event = self.new.event } }
        ensures next { connection_seen self.new ≡ moved (rules_sample now.now) (connection_seen self.old) }
        ensures dues { dues_in dues.new ≡ dues_in dues.old ++ on_link self.old.link
            (due_of_moved (rules_sample before.now) (rules_sample now.now) (connection_seen self.old).event) }
        ensures len { array_vec_len dues.new.list ≤ array_vec_len dues.old.list + 4 }
    {
        if let Some(contract) = &mut self.event {
            dues.push_events(self.link, contract.see(before, now));
        }
    }

    /// The number of the emergency contract in force, or 0.
    pub(crate) fn emergency_number(&self) -> u8
        ensures { result ≡ emergency_number (connection_seen self.now).emergency }
    {
        match &self.emergency {
            Some(asked) => asked.n,
            None => 0,
        }
    }

    /// Emergency report number `r` since the anchor, with the groups that the emergency contract in force asks for.
    fn emergency_report(&self, r: u64) -> DueItem
        ensures { rules_item result ≡ Report 9 (groups_of r (connection_seen self.now).emergency) }
    {
        match &self.emergency {
            Some(asked) => asked.report(EMERGENCY_REPORT, r),
            None => DueItem::Report {
                tag: EMERGENCY_REPORT,
                groups: [false; 6],
            },
        }
    }
}
