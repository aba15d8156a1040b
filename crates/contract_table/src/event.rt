//! An event contract in force.

ghost use Rattle.std.specs.Prelude.{◌≡◌, []};
ghost use Rattle.due_event.specs.RuleTerms.{rules_profile, rules_limits, rules_sample};
ghost use Rattle.contract_table.specs.ConnectionDues.{due_of_watched};
ghost use Rattle.contract_table.specs.Connections.{watched_after};
ghost use Rattle.contract_table.specs.Events.{events_of};
ghost use Rattle.contract_table.specs.NextConnection.{watched_on};
ghost use Rattle.contract_table.specs.Seen.{watched_seen};

use adsc_requests::Limits;
use due_event::{Fired, Profile, Watch};
use flight_samples::Sample;

/// An event contract in force.
#[derive(Clone, Copy, Debug)]
pub(crate) struct EventContract {
    /// Its number.
    pub n: u8,
    /// Its limits, and which of its events are still to come.
    pub watch: Watch,
}

impl EventContract {
    /// The contract of a request that is accepted now.
    pub(crate) fn new(n: u8, limits: Limits, profile: Profile) -> EventContract
        ensures { watched_seen result ≡ watched_after (rules_profile profile) n (rules_limits limits) [] }
    {
        EventContract {
            n,
            watch: Watch::new(limits, profile),
        }
    }

    /// Which events a new sample fires; `before` is the sample before it.
    pub(crate) fn see(&mut self, before: &Sample, now: &Sample) -> Fired
        ensures next { watched_seen self.new ≡ watched_on (rules_sample now.now) (watched_seen self.old) }
        ensures fired { events_of result
            ≡ due_of_watched (rules_sample before.now) (rules_sample now.now) (watched_seen self.old) }
    {
        self.watch.see(before, now)
    }
}
