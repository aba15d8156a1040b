//! Whether two flat structs are the same.

ghost use Rattle.std.specs.Prelude.{◌≡◌, ◌↔◌, IsTrue};

use crate::structs::{
    FlatIntent, FlatLimits, FlatMessage, FlatModuli, FlatOctet, FlatRange, FlatRate, FlatReporting,
};

fn same_octet(one: FlatOctet, other: FlatOctet) -> bool
    ensures { IsTrue result ↔ one ≡ other }
{
    one.present == other.present && one.value == other.value
}

fn same_rate(one: FlatRate, other: FlatRate) -> bool
    ensures { IsTrue result ↔ one ≡ other }
{
    one.present == other.present && one.value == other.value
}

fn same_intent(one: FlatIntent, other: FlatIntent) -> bool
    ensures { IsTrue result ↔ one ≡ other }
{
    one.present == other.present && one.modulus == other.modulus && one.minutes == other.minutes
}

fn same_range(one: FlatRange, other: FlatRange) -> bool
    ensures { IsTrue result ↔ one ≡ other }
{
    one.present == other.present && one.ceiling == other.ceiling && one.floor == other.floor
}

fn same_moduli(one: FlatModuli, other: FlatModuli) -> bool
    ensures { IsTrue result ↔ one ≡ other }
{
    same_octet(one.flight_id, other.flight_id)
        && same_octet(one.route, other.route)
        && same_octet(one.earth, other.earth)
        && same_octet(one.air, other.air)
        && same_octet(one.weather, other.weather)
        && same_octet(one.airframe, other.airframe)
}

/// Whether two messages ask for the same reports.
pub(crate) fn same_reporting(one: FlatReporting, other: FlatReporting) -> bool
    ensures { IsTrue result ↔ one ≡ other }
{
    same_octet(one.interval, other.interval)
        && same_moduli(one.moduli, other.moduli)
        && same_intent(one.intent, other.intent)
}

/// Whether two messages watch the same.
pub(crate) fn same_limits(one: FlatLimits, other: FlatLimits) -> bool
    ensures { IsTrue result ↔ one ≡ other }
{
    same_octet(one.lateral, other.lateral)
        && same_rate(one.vertical_rate, other.vertical_rate)
        && one.waypoint == other.waypoint
        && same_range(one.range, other.range)
}

/// Whether two messages are the same.
pub(crate) fn same_message(one: FlatMessage, other: FlatMessage) -> bool
    ensures { IsTrue result ↔ one ≡ other }
{
    one.tag == other.tag
        && one.number == other.number
        && same_reporting(one.reporting, other.reporting)
        && same_limits(one.limits, other.limits)
}
