//! Which events of an ADS-C event contract a flight sample fires.
//!
//! A ground system can ask an aircraft to report as soon as something happens: the aircraft is off its track by more than a
//! threshold, climbs or descends faster than one, leaves a range of altitudes, or has another active waypoint. These are the
//! four events of an event contract, and its [`Limits`] say which are asked for and where they begin. Nothing is due at
//! acceptance. Then each new sample of the flight is compared with the limits.
//!
//! A [`Watch`] is made at the acceptance, of the limits and the aircraft's [`Profile`]. [`Watch::see`] is shown each new sample
//! with the one before it, and answers which events fall due, as [`Fired`]. With a lateral threshold of 8 (one nautical mile)
//! and samples 8, 9, 9, 0 and 9 off the track, nothing fires at 8, which is the threshold itself, and the lateral event fires at
//! the first 9. In profile 1 it is then spent, for as long as the contract stands. In profile 2 the sample at 0 arms it again,
//! so it fires at the last 9 too. The vertical rate event comes once per contract in both, and the waypoint event at each
//! change. How a new contract with the same limits begins anew is the caller's: it makes another watch.
//!
//! Nothing here takes memory: a watch is the limits and a few flags. What the contracts promise, they promise over every list
//! of samples: a watch stands for the samples that it was shown, and answers as the contract rules do after them. The limits
//! are those of an event request, one type in the whole repository. This crate stands on the requests, the samples and the
//! definitions of the contract rules; above it stands the table of contracts. Begin with `src/watch.rt`, then
//! `specs/Watches.antt`, and `specs/Events.antt` in the crate of the contract rules.
#![tactic(auto)]

mod exceed;
mod fired;
mod profile;
mod trigger;
mod watch;

pub use adsc_requests::Limits;
pub use fired::Fired;
pub use profile::Profile;
pub use watch::Watch;

#[cfg(test)]
mod tests;
