//! The watch of an event contract.

ghost use Rattle.std.specs.Prelude.{◌≡◌, List, [], ◌∷◌};
ghost use Rattle.contract_rules.specs.Acts.{Sample as RulesSample};
ghost use Rattle.due_event.specs.RuleTerms.{rules_sample};
ghost use Rattle.due_event.specs.Watches.{WatchState, StandsFor, fired_at, fired_by, watch_moved};

use crate::exceed::{exceeds_lateral, exceeds_range, exceeds_vrate, is_other_waypoint};
use crate::fired::Fired;
use crate::profile::Profile;
use crate::trigger::Trigger;
use adsc_requests::Limits;
use flight_samples::Sample;
use std::marker::Model;

/// The watch of one event contract, from its acceptance on: it is shown each sample of the flight and answers which events
/// fall due. Contracts see the limits of the contract and the event of each of three.
///
/// The four events follow RTCA DO-258A / EUROCAE ED-100A; how often each is reported is this project's profile.
#[derive(Clone, Copy, Debug)]
pub struct Watch {
    limits: Limits,
    lateral: Trigger,
    vrate: Trigger,
    range: Trigger,
}

impl Model for Watch {
    ghost Value = { WatchState };

    ghost view = { λ w.
        record { limits = w.limits; lateral = w.lateral; vrate = w.vrate; range = w.range } };

    ghost inverse = { λ w.
        record { limits = w.limits; lateral = w.lateral; vrate = w.vrate; range = w.range } };
}

impl Watch {
    /// The watch of an event contract that is accepted now. It was shown no sample yet.
    pub fn new(limits: Limits, profile: Profile) -> Watch
        ensures stands { StandsFor result profile limits [] }
    {
        let arms_again = profile == Profile::Two;
        Watch {
            limits,
            lateral: Trigger::new(arms_again),
            vrate: Trigger::new(false),
            range: Trigger::new(arms_again),
        }
    }

    /// The limits of the contract.
    pub fn limits(&self) -> &Limits
        ensures { result.now ≡ self.now.limits }
    {
        &self.limits
    }

    /// Which events fall due at the sample `now`. `before` is the aircraft's sample before it, with which the active waypoint
    /// is compared; the first that a watch is shown comes from before the contract's acceptance, and counts for no limit.
    pub fn see(&mut self, before: &Sample, now: &Sample) -> Fired
        ensures fired { result ≡
            fired_by self.old (rules_sample before.now) (rules_sample now.now) }
        ensures next { self.new ≡ watch_moved (rules_sample now.now) self.old }

        // So over every list of samples that the watch was shown, the newest first.
        ensures stands { (profile : Profile) (limits : Limits) (samples : List RulesSample)
            → StandsFor self.old profile limits samples
            → StandsFor self.new profile limits (rules_sample now.now ∷ samples) }
        ensures answers { (profile : Profile) (limits : Limits) (samples : List RulesSample)
            → StandsFor self.old profile limits samples
            → result ≡ fired_at profile limits samples
            (rules_sample before.now) (rules_sample now.now) }
    {
        Fired {
            lateral: self.lateral.see(exceeds_lateral(&self.limits, now)),
            vrate: self.vrate.see(exceeds_vrate(&self.limits, now)),
            range: self.range.see(exceeds_range(&self.limits, now)),
            waypoint: self.limits.waypoint && is_other_waypoint(before, now),
        }
    }
}
