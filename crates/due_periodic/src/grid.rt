//! A grid of moments at a fixed interval from an anchor.

ghost use Rattle.std.specs.Prelude.{◌≡◌, ℕ, ◌≤◌, List, [], ◌∷◌};
ghost use Rattle.contract_rules.specs.Reports.{crosses};
ghost use Rattle.due_periodic.specs.Grids.{GridState, StandsFor, grid_after, last_moment};

use std::marker::Model;

/// The moments at which reports of a series are due: every `interval` seconds from the anchor on, the anchor itself not
/// among them. Contracts see its anchor, its interval and the last moment that it was given.
///
/// That contracts with an interval exist follows ICAO Doc 10037; the grid, and that missed moments are not made up, are
/// this project's profile.
#[derive(Clone, Copy, Debug, PartialEq, Eq)]
pub struct Grid {
    anchor: u32,
    interval: u32,
    last: u32,
}

impl Model for Grid {
    ghost Value = { GridState };

    ghost view = { λ g. record { anchor = g.anchor; interval = g.interval; last = g.last } };

    ghost invariant = { λ g. (1 ≤ g.interval) × (g.anchor ≤ g.last) };

    ghost inverse = { λ g. record { anchor = g.anchor; interval = g.interval; last = g.last } };
}

impl Grid {
    /// The grid of this anchor and interval, both in seconds. It has been given no moment yet.
    pub fn new(anchor: u32, interval: u32) -> Grid
        requires { 1 ≤ interval }
        ensures value { result ≡ grid_after anchor interval [] }
        ensures stands { StandsFor result [] }
    {
        Grid {
            anchor,
            interval,
            last: anchor,
        }
    }

    /// Whether one moment of the grid or more lies after the last moment given and not after `t`. Then `t` is the last
    /// moment given.
    pub fn cross(&mut self, t: u32) -> bool
        requires { self.old.last ≤ t }
        ensures crossed { result ≡ crosses self.old.anchor self.old.interval self.old.last t }
        ensures next { self.new ≡ record self.old { last = t } }

        // So over every list of moments that the grid was given, the newest first.
        ensures stands { (moments : List ℕ) → StandsFor self.old moments
            → StandsFor self.new (t ∷ moments) }
        ensures answers { (moments : List ℕ) → StandsFor self.old moments
            → result ≡ crosses self.old.anchor self.old.interval
            (last_moment self.old.anchor moments) t }
    {
        let passed = (self.last - self.anchor) / self.interval;
        self.last = t;
        passed < (t - self.anchor) / self.interval
    }

    /// Begins the grid anew at another anchor, with the same interval.
    pub fn restart(&mut self, anchor: u32)
        ensures value { self.new ≡ grid_after anchor self.old.interval [] }
        ensures stands { StandsFor self.new [] }
    {
        self.anchor = anchor;
        self.last = anchor;
    }
}
