//! Emergency mode of one link: whether it is on, when an emergency report falls due, and how many were given.

ghost use Rattle.std.specs.Prelude.{◌≡◌, ℕ, ◌+◌, ◌^◌, ◌<◌, ◌≤◌, ◌&&◌, Bool, List, [], ◌∷◌, false, unwrap_or};
ghost use Rattle.std.specs.Option.{ForSome};
ghost use Rattle.contract_rules.specs.Configuration.{default_emergency_interval};
ghost use Rattle.contract_rules.specs.Reports.{crosses};
ghost use Rattle.due_periodic.specs.Grids.{grid_after};
ghost use Rattle.due_emergency.specs.Calls.{Call, Admitted, Crew, Cancelled, Contract, Tick, Counted};
ghost use Rattle.due_emergency.specs.Modes.{ModeState, StandsFor, is_in_mode, is_tick_due, report_count};

use due_periodic::Grid;
use std::marker::Model;

/// The interval of emergency reports where no emergency contract gives one, in seconds. This project's profile.
pub const DEFAULT_INTERVAL: u32 = 304;

/// The emergency mode of one link, from its admission on. Contracts see whether the mode is on, the grid of the link's
/// emergency reports, and how many reports were counted since the grid's anchor.
///
/// Moments are in seconds. None may be below one that the mode was told before. This project's profile.
#[derive(Clone, Copy, Debug, PartialEq, Eq)]
pub struct Mode {
    on: bool,
    grid: Grid,
    reports: u64,
}

impl Model for Mode {
    ghost Value = { ModeState };

    ghost view = { λ m. record { is_on = m.on; grid = m.grid; reports = m.reports } };

    ghost inverse = { λ m. record { on = m.is_on; grid = m.grid; reports = m.reports } };
}

impl Mode {
    /// The mode of a link that is admitted at `t`, which is the anchor. It is on where the crew's switch is.
    pub fn admit(on: bool, t: u32) -> Mode
        ensures value { result ≡
            record { is_on = on; grid = grid_after t default_emergency_interval []; reports = 0 } }
        ensures stands { StandsFor result (Admitted on t ∷ []) }
    {
        Mode {
            on,
            grid: Grid::new(t, DEFAULT_INTERVAL),
            reports: 0,
        }
    }

    /// The crew switches emergency on or off at `t`, which is the new anchor. Answers whether the link was in emergency
    /// mode before: then, and only then, an emergency-off is due where the crew switches off. Where it switches on, a
    /// report is due at once.
    pub fn crew(&mut self, on: bool, t: u32) -> bool
        requires { self.old.grid.last ≤ t }
        ensures was_on { result ≡ self.old.is_on }
        ensures next { self.new ≡
            record { is_on = on; grid = grid_after t self.old.grid.interval []; reports = 0 } }
        ensures stands { (calls : List Call)
            → StandsFor self.old calls → StandsFor self.new (Crew on t ∷ calls) }
        ensures answers { (calls : List Call)
            → StandsFor self.old calls → result ≡ is_in_mode calls }
    {
        let was_on = self.on;
        self.on = on;
        self.grid.restart(t);
        self.reports = 0;
        was_on
    }

    /// The ground cancels emergency mode on this link, until the crew switches on again. The anchor stays.
    pub fn cancel(&mut self)
        ensures next { self.new ≡ record self.old { is_on = false } }
        ensures stands { (calls : List Call)
            → StandsFor self.old calls → StandsFor self.new (Cancelled ∷ calls) }
    {
        self.on = false;
    }

    /// An emergency contract is accepted at `t`, or the one in force is cancelled, by None; `t` is the new anchor. The
    /// interval is in seconds: [`DEFAULT_INTERVAL`] for a contract that has none or one of 0 s. Where a contract is
    /// accepted while the link is in emergency mode, a report is due at once.
    pub fn contract(&mut self, interval: Option<u32>, t: u32)
        requires interval { ForSome interval (λ seconds. 1 ≤ seconds) }
        requires moment { self.old.grid.last ≤ t }
        ensures next { self.new ≡ record self.old {
          grid = grid_after t (unwrap_or interval default_emergency_interval) [];
          reports = 0;
        } }
        ensures stands { (calls : List Call)
            → StandsFor self.old calls → StandsFor self.new (Contract interval t ∷ calls) }
    {
        self.grid = Grid::new(t, interval.unwrap_or(DEFAULT_INTERVAL));
        self.reports = 0;
    }

    /// Time moves on to `t`. Answers whether an emergency report is due: where the link is in emergency mode, and a moment
    /// of the grid or more lies after the last moment and not after `t`.
    pub fn tick(&mut self, t: u32) -> bool
        requires { self.old.grid.last ≤ t }
        ensures due { result ≡ (self.old.is_on
            && crosses self.old.grid.anchor self.old.grid.interval self.old.grid.last t) }
        ensures next { self.new ≡ record self.old { grid = record self.old.grid { last = t } } }
        ensures stands { (calls : List Call)
            → StandsFor self.old calls → StandsFor self.new (Tick t ∷ calls) }
        ensures answers { (calls : List Call)
            → StandsFor self.old calls → result ≡ is_tick_due calls t }
    {
        let crossed = self.grid.cross(t);
        self.on && crossed
    }

    /// Whether the link is in emergency mode.
    pub fn is_on(&self) -> bool
        ensures value { result ≡ self.now.is_on }
        ensures answers { (calls : List Call)
            → StandsFor self.now calls → result ≡ is_in_mode calls }
    {
        self.on
    }

    /// How many emergency reports were counted since the anchor. This is the number of the next one, counted from 0.
    pub fn reports(&self) -> u64
        ensures value { result ≡ self.now.reports }
        ensures answers { (calls : List Call)
            → StandsFor self.now calls → result ≡ report_count calls }
    {
        self.reports
    }

    /// Counts an emergency report. There can't be too many: each report after the first of an anchor comes on a tick that
    /// raises the time.
    pub fn count_report(&mut self)
        requires { self.old.reports < 2 ^ 63 }
        ensures next { self.new ≡ record self.old { reports = self.old.reports + 1 } }
        ensures stands { (calls : List Call)
            → StandsFor self.old calls → StandsFor self.new (Counted ∷ calls) }
    {
        self.reports += 1;
    }
}
