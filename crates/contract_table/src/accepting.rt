//! What an accepted message makes of a link.

ghost use Rattle.std.specs.Prelude.{◌≡◌, ◌==◌, ◌≤◌, IfSome, cond, option_map};
ghost use Rattle.contract_rules.specs.Messages.{PeriodicRequest, EmergencyRequest, is_demand};
ghost use Rattle.due_event.specs.RuleTerms.{rules_profile};
ghost use Rattle.contract_table.specs.Acts.{rules_message};
ghost use Rattle.contract_table.specs.NextConnection.{accepted, cancelled, moved_to};
ghost use Rattle.contract_table.specs.Seen.{anchor_seen, connection_seen, emergency_seen, reporting_seen, series_seen};
ghost use Rattle.contract_table.specs.Sound.{IsSound, IsSoundMode, IsSoundSeries};

use crate::connection::{Connection, PeriodicContract};
use crate::event::EventContract;
use crate::reporting::Reporting;
use adsc_requests::Message;
use due_emergency::DEFAULT_INTERVAL;
use due_event::Profile;

impl Connection {
    /// Carries out a message that is accepted at this time. A request replaces the contract of its kind and no other, and a
    /// demand replaces none.
    pub(crate) fn accept(&mut self, profile: Profile, message: &Message, time: u32)
        requires sound { IsSound time self.old }
        ensures next { connection_seen self.new
            ≡ accepted (rules_profile profile) time (rules_message message.now) (connection_seen self.old) }
        ensures link { self.new.link ≡ self.old.link }
        ensures sound { IsSound time self.new }
    {
        match message {
            Message::CancelAll => {}
            Message::Cancel { n } => self.cancel(*n, time),
            Message::CancelEmergency { .. } => self.mode.cancel(),
            Message::Periodic {
                n,
                interval,
                groups,
                intent,
            } => {
                self.begin_periodic(
                    Reporting {
                        n: *n,
                        interval: *interval,
                        groups: *groups,
                        intent: *intent,
                    },
                    time,
                )
            }
            Message::Event { n, limits } => self.event = Some(EventContract::new(
                *n, *limits, profile,
            )),
            Message::Emergency {
                n,
                interval,
                groups,
                intent,
            } => {
                self.begin_emergency(
                    Reporting {
                        n: *n,
                        interval: *interval,
                        groups: *groups,
                        intent: *intent,
                    },
                    time,
                )
            }
        }
    }

    /// Begins the periodic contract of a request, whose first report is given; a demand begins none.
    fn begin_periodic(&mut self, asked: Reporting, time: u32)
        requires { IfSome self.old.periodic (IsSoundSeries time) }
        ensures rest { self.new ≡ record self.old { periodic = self.new.periodic } }
        ensures next { option_map series_seen self.new.periodic ≡ cond (is_demand asked.interval)
            (option_map series_seen self.old.periodic)
            (Some (record { contract = record { request = PeriodicRequest (reporting_seen asked); since = time }; reports = 1 })) }
        ensures sound { IfSome self.new.periodic (IsSoundSeries time) }
    {
        if asked.seconds() > 0 {
            self.periodic = Some(PeriodicContract {
                asked,
                since: time,
                reports: 1,
            });
        }
    }

    /// Begins the emergency contract of a request. In emergency mode its first report is given, and it is the new anchor.
    fn begin_emergency(&mut self, asked: Reporting, time: u32)
        requires { IsSoundMode time self.old.emergency self.old.mode }
        ensures rest { self.new ≡ record self.old { emergency = self.new.emergency; mode = self.new.mode } }
        ensures emergency { option_map emergency_seen self.new.emergency ≡ Some (EmergencyRequest (reporting_seen asked)) }
        ensures anchor { anchor_seen self.new.mode ≡ moved_to time 1 (anchor_seen self.old.mode) }
        ensures sound { IsSoundMode time self.new.emergency self.new.mode }
    {
        let seconds = asked.seconds();
        let interval = if seconds == 0 {
            DEFAULT_INTERVAL
        } else {
            seconds
        };
        self.emergency = Some(asked);
        self.mode.contract(Some(interval), time);
        if self.mode.is_on() {
            self.mode.count_report();
        }
    }

    /// Ends the contract with this number. The end of an emergency contract is the new anchor of emergency reports.
    fn cancel(&mut self, n: u8, time: u32)
        requires sound { IsSound time self.old }
        ensures next { connection_seen self.new ≡ cancelled time n (connection_seen self.old) }
        ensures link { self.new.link ≡ self.old.link }
        ensures sound { IsSound time self.new }
    {
        if matches!(&self.periodic, Some(contract) if contract.asked.n == n) {
            self.periodic = None;
        }
        if matches!(&self.event, Some(contract) if contract.n == n) {
            self.event = None;
        }
        if matches!(&self.emergency, Some(asked) if asked.n == n) {
            self.emergency = None;
            self.mode.contract(None, time);
        }
    }
}
