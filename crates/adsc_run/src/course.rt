//! An aircraft that flies, the stations on its links, and what is kept of the lines so far.
ghost use Rattle.std.specs.Prelude.{◌≡◌, ◌≢◌, ◌+◌, ◌-◌, ◌<◌, ◌≤◌, ℕ, List, [], ◌∷◌, ◌++◌, All, true, false, length, IfOk, IfErr, OnOk, None, Some, flat_map, slice_get};
ghost use Rattle.aircraft_core.specs.Entries.{IsTakenBy};
ghost use Rattle.run_rules.specs.Happenings.{Happening, is_text_on};
ghost use Rattle.run_rules.specs.Stages.{enters};
ghost use Rattle.run_rules.specs.Texts.{refuses};
ghost use Rattle.adsc_run.specs.Courses.{Did, StandsBehind};
ghost use Rattle.adsc_run.specs.Outcomes.{AreCentres};
ghost use Rattle.adsc_run.specs.Stations.{StationStands, row_of as row_of_station, rows_of};
ghost use Rattle.adsc_run.specs.declared.station.Station.{Station as StationValue};

use crate::outbox::{TextEnds, no_ends};
use crate::outcome::{CentreRow, Outcome};
use crate::station::{Role, Station};
use adsc_io::NoMemory;
use aircraft_core::{Craft, Entry};
use run_rules::{End, RefusedLine, RefusedWhy};
use std::alloc::Global;

/// An aircraft that flies, a station for each of its links, the refused texts, the entries of the burst that isn't entered yet, and for
/// each link where those of its downlinks end that were found.
#[derive(Drop)]
pub(crate) struct Course {
    pub(crate) craft: Craft,
    pub(crate) stations: Vec<Station>,
    pub(crate) refused: Vec<RefusedLine>,
    pub(crate) burst: Vec<Entry>,
    pub(crate) downlink_ends: Vec<TextEnds>,
}

impl Course {
    /// The course of an aircraft that begins to fly.
    pub(crate) fn new(alloc: Global, craft: Craft) -> Result<Course, NoMemory>
        ensures craft { IfOk result (λ course. course.craft ≡ craft) }
        ensures burst { IfOk result (λ course. course.burst.items ≡ []) }
        ensures stands { IfOk result (λ course. StandsBehind course []) }
    {
        let stations = stations_of(alloc, &craft)?;
        let downlink_ends = no_ends(alloc, craft.links())?;
        Ok(Course {
            craft,
            stations,
            refused: Vec::new(alloc),
            burst: Vec::new(alloc),
            downlink_ends,
        })
    }

    /// Enters this entry into the journal.
    pub(crate) fn enter(&mut self, entry: Entry) -> Result<Option<End>, NoMemory>
        requires taken { IsTakenBy self.old.craft.setting entry }
        requires flight { (link : ℕ) → is_text_on link entry ≡ false }
        ensures { (log : List Happening) (line : ℕ) → StandsBehind self.old log → IfOk result (Did false (enters entry) line log self.old self.new) }
    {
        self.craft.reserve()?;
        self.craft.apply(entry);
        Ok(None)
    }

    /// Keeps this entry for the burst.
    pub(crate) fn join(&mut self, entry: Entry) -> Result<Option<End>, NoMemory>
        ensures end { IfOk result (λ end. end ≡ None) }
        ensures same { self.new ≡ record self.old { burst = self.new.burst } }
        ensures joined { OnOk result (self.new.burst.items ≡ self.old.burst.items ++ entry ∷ []) }
    {
        self.burst.push(entry)?;
        Ok(None)
    }

    /// Refuses the text of this line.
    pub(crate) fn refuse(&mut self, line: u32, why: RefusedWhy) -> Result<Option<End>, NoMemory>
        ensures { (log : List Happening) → StandsBehind self.old log → IfOk result (Did true (refuses line why) line log self.old self.new) }
    {
        self.refused.push(RefusedLine { line, why })?;
        Ok(None)
    }

    /// The outcome of a run that ends so.
    pub(crate) fn ended(self, alloc: Global, end: End) -> Result<Outcome, NoMemory>
        ensures craft { IfOk result (λ outcome. outcome.craft ≡ Some self.craft) }
        ensures refused { IfOk result (λ outcome. outcome.refused.items ≡ self.refused.items) }
        ensures centres { (log : List Happening) → StandsBehind self log → IfOk result (λ outcome. AreCentres (Some self.craft.setting) log outcome.centres.items) }
        ensures end { IfOk result (λ outcome. outcome.end ≡ end) }
    {
        let Course {
            craft,
            stations,
            refused,
            ..
        } = self;
        let centres = centres_of(alloc, stations)?;
        Ok(Outcome {
            craft: Some(craft),
            refused,
            centres,
            end,
        })
    }
}

/// The stations of an aircraft's links, all unused.
fn stations_of(alloc: Global, craft: &Craft) -> Result<Vec<Station>, NoMemory>
    ensures count { IfOk result (λ stations. length stations.items ≡ length craft.now.setting.addresses) }
    ensures each { IfOk result (λ stations. (link : ℕ) (station : StationValue) → slice_get stations.items link ≡ Some station
        → StationStands craft.now.setting link [] station) }
{
    let mut stations = Vec::new(alloc);
    for link in 0..craft.links() {
        stations.push(Station::new(alloc, craft.address(link), craft.registration()))?;
    }
    Ok(stations)
}

/// The rows of those stations that are centres, in the order of their links.
fn centres_of(alloc: Global, stations: Vec<Station>) -> Result<Vec<CentreRow>, NoMemory>
    ensures { IfOk result (λ rows. rows.items ≡ flat_map rows_of stations.items) }
{
    let mut rows = Vec::new(alloc);
    for station in stations {
        if let Some(row) = row_of(station) {
            rows.push(row)?;
        }
    }
    Ok(rows)
}

/// The row of a station, if it is a centre's.
fn row_of(station: Station) -> Option<CentreRow>
    ensures { result ≡ row_of_station station }
{
    let Station {
        address,
        role,
        centre,
        ..
    } = station;
    match role {
        Role::Centre => Some(CentreRow { address, centre }),
        _ => None,
    }
}
