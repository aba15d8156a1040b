//! What a request for reports asks, periodic or in emergency mode.

ghost use Rattle.std.specs.Prelude.{◌≡◌, map, false};
ghost use Rattle.contract_rules.specs.Messages.{same_reporting, seconds_of};
ghost use Rattle.contract_rules.specs.Reports.{is_modulus_due};
ghost use Rattle.contract_rules.specs.Due.{Report};
ghost use Rattle.contract_table.specs.Dues.{rules_item};
ghost use Rattle.contract_table.specs.Seen.{reporting_seen};

use crate::due::DueItem;
use adsc_requests::{Intent, Moduli, interval_seconds};
use due_periodic::modulus_due;

/// What a periodic request or an emergency periodic request asks.
#[derive(Clone, Copy, Debug)]
pub(crate) struct Reporting {
    /// The contract's number.
    pub n: u8,
    /// The octet of the reporting interval, where there is one.
    pub interval: Option<u8>,
    /// In every how many reports each group stands.
    pub groups: Moduli,
    /// The aircraft intent that is asked for.
    pub intent: Option<Intent>,
}

impl Reporting {
    /// Whether another request asks the same, in every field.
    pub(crate) fn is_same(&self, other: &Reporting) -> bool
        ensures { result ≡ same_reporting (reporting_seen self.now) (reporting_seen other.now) }
    {
        let number = self.n == other.n;
        let interval = self.interval == other.interval;
        let groups = self.groups.m == other.groups.m;
        let intent = self.intent == other.intent;
        number & interval & groups & intent
    }

    /// The reporting interval in seconds, 0 where there is none.
    pub(crate) fn seconds(&self) -> u32
        ensures { result ≡ seconds_of self.now.interval }
    {
        match self.interval {
            Some(octet) => interval_seconds(octet),
            None => 0,
        }
    }

    /// Report number `r` of the series that is asked for.
    pub(crate) fn report(&self, tag: u8, r: u64) -> DueItem
        ensures { rules_item result ≡ Report tag (map (is_modulus_due r) self.now.groups.m) }
    {
        DueItem::Report {
            tag,
            groups: groups_in(&self.groups, r),
        }
    }
}

/// Which groups stand in report number `r` of a series.
pub(crate) fn groups_in(moduli: &Moduli, r: u64) -> [bool; 6]
    ensures { result ≡ map (is_modulus_due r) moduli.now.m }
{
    let mut groups = [false; 6];
    for (place, modulus) in moduli.m.iter().enumerate() {
        groups[place] = is_due(*modulus, r);
    }
    groups
}

/// Whether a group with this modulus stands in report number `r`.
fn is_due(modulus: Option<u8>, r: u64) -> bool
    ensures { result ≡ is_modulus_due r modulus }
{
    match modulus {
        Some(modulus) => modulus_due(r, modulus),
        None => false,
    }
}
