//! When a report of a series falls due, and which of its groups it has.
//!
//! A periodic contract of ADS-C makes an aircraft report every so many seconds. The moments lie on a grid: whole intervals
//! after the anchor, which is the moment at which the contract was accepted. The avionics see time in ticks, and a tick may
//! come late or pass several moments at once. So the question at a tick is whether the grid was crossed since the last
//! moment, and the answer is one report, however many moments lie between.
//!
//! A [`Grid`] is made at the anchor, and [`Grid::cross`] is told each moment as it comes. For an interval of 304 s
//! accepted at 0 s it answers no at 303 s, yes at 304 s, and yes once at 912 s, though 608 s went by as well. The next
//! moment is then 1216 s: a late report moves no moment after it. In emergency mode the grid begins anew at another anchor,
//! by [`Grid::restart`].
//!
//! Each group that a request asks for has a modulus: it stands in every so many reports of the series, counted from 0,
//! and [`modulus_due`] says in which. A group of modulus 2 stands in reports 0, 2, 4, and one of modulus 0 in none.
//!
//! Moments are seconds, kept by the caller, and never fall. Nothing here takes memory, and a grid is three numbers. This
//! crate stands on the definitions of the contract rules alone. Above it stand emergency mode and the table of contracts.
//! Begin with `src/grid.rt`; what its contracts cite are `specs/Grids.antt` and, in the crate of the contract rules,
//! `specs/Reports.antt`.
#![tactic(auto)]

mod grid;
mod modulus;

pub use grid::Grid;
pub use modulus::modulus_due;

#[cfg(test)]
mod tests;
