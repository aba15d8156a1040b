//! Whether a sample exceeds a limit of an event request, and whether it has another active waypoint.

ghost use Rattle.std.specs.Prelude.{◌≡◌};
ghost use Rattle.contract_rules.specs.Events.{Lateral, VerticalRate, Range, exceeds, is_steeper, is_outside, is_waypoint_change};
ghost use Rattle.due_event.specs.RuleTerms.{rules_limits, rules_range, rules_sample};

use adsc_requests::{Limits, Range as AltitudeRange};
use flight_samples::Sample;

/// Whether the aircraft is off its track, to either side, by more than the threshold.
pub(crate) fn exceeds_lateral(limits: &Limits, sample: &Sample) -> bool
    ensures { result ≡ exceeds Lateral (rules_limits limits.now) (rules_sample sample.now) }
{
    match limits.lateral {
        None => false,
        Some(threshold) => sample.xtk.unsigned_abs() > u32::from(threshold),
    }
}

/// Whether the aircraft climbs faster than a positive threshold, or descends faster than a negative one.
pub(crate) fn exceeds_vrate(limits: &Limits, sample: &Sample) -> bool
    ensures { result ≡ exceeds VerticalRate (rules_limits limits.now) (rules_sample sample.now) }
{
    match limits.vrate {
        None => false,
        Some(threshold) => is_steeper(threshold, sample.vr),
    }
}

/// Whether a rate in 16 ft/min is beyond a threshold in 64 ft/min, upwards or downwards as the threshold's sign says.
fn is_steeper(threshold: i8, rate: i32) -> bool
    ensures { result ≡ is_steeper (Some threshold) rate }
{
    let limit = 4 * i32::from(threshold);
    if threshold < 0 {
        rate < limit
    } else {
        rate > limit
    }
}

/// Whether the aircraft is above the ceiling or below the floor.
pub(crate) fn exceeds_range(limits: &Limits, sample: &Sample) -> bool
    ensures { result ≡ exceeds Range (rules_limits limits.now) (rules_sample sample.now) }
{
    match &limits.range {
        None => false,
        Some(range) => is_outside(range, sample.alt),
    }
}

/// Whether an altitude in 4 ft is above the ceiling or below the floor.
fn is_outside(range: &AltitudeRange, altitude: i32) -> bool
    ensures { result ≡ is_outside (Some (rules_range range.now)) altitude }
{
    altitude > range.ceiling || altitude < range.floor
}

/// Whether the active waypoint of a sample is another than that of the sample before.
pub(crate) fn is_other_waypoint(before: &Sample, now: &Sample) -> bool
    ensures { result ≡ is_waypoint_change (rules_sample before.now) (rules_sample now.now) }
{
    before.wlat != now.wlat || before.wlon != now.wlon
}
