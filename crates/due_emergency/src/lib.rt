//! Emergency mode of one ADS-C link: whether it is on, when an emergency report falls due, and how many were given.
//!
//! When the crew switches emergency on, an aircraft reports by itself on each link that has contracts, every 304 seconds or
//! at the interval of the link's emergency contract. A ground system may cancel the mode on its own link; the crew brings it
//! back by switching on again. The reports lie on a grid whose anchor is the latest of these: the crew's act, the link's
//! admission, the acceptance of an emergency contract, and its cancel. Which groups a report has follows from its number
//! since the anchor.
//!
//! A [`Mode`] is all of this for one link. It is made at the admission and then told, as they come, what the crew does
//! ([`Mode::crew`]), that the ground cancels the mode ([`Mode::cancel`]), that an emergency contract is accepted or cancelled
//! ([`Mode::contract`]), each moment ([`Mode::tick`]) and each report that was given ([`Mode::count_report`]). A link that is
//! admitted at 0 s while the crew's switch is off has no report at 100 s. The crew switches on at 100 s: the report that is due
//! at once is the caller's, who counts it; then `tick` answers no at 304 s, yes at 404 s, no at 608 s and yes at 708 s. The
//! crew switches off at 708 s, `crew` answers that the link was in mode, and nothing is due any more.
//!
//! Moments are seconds, kept by the caller, and never fall. Nothing here takes memory, and a mode is a few numbers. What
//! the contracts promise, they promise over every list of calls: a mode stands for the calls made on it, and answers by
//! them. That these answers are those of the contract rules, for the calls that the acts of any history make, is a law
//! ([`mode_is_of_rules`]).
//!
//! This crate stands on the grids of `due_periodic` and on the definitions of the contract rules; above it stands the table
//! of contracts. Begin with `src/mode.rt`, then `specs/Calls.antt`, `specs/Modes.antt` and `specs/LinkCalls.antt`.
#![tactic(auto)]

mod laws;
mod mode;

pub use laws::mode_is_of_rules;
pub use mode::{DEFAULT_INTERVAL, Mode};

#[cfg(test)]
mod tests;
