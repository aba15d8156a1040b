//! The requests that a ground system sends to an aircraft under ADS-C, and the payload octets that
//! carry them, after RTCA DO-258A / EUROCAE ED-100A in this project's profile: the messages, the
//! groups and their tags are those of the standards; the octets of a group's data, the limit of four
//! messages and the numbers of the reasons are this project's own.
//!
//! An uplink is one to four messages: cancels, periodic and emergency periodic requests, event
//! requests. [`decode_uplink`] reads a payload as the one uplink that it encodes, or answers its
//! first fault with the bit, reason, number and octet that a negative acknowledgement carries to
//! the ground. [`encode_uplink`] writes an uplink. [`kind_of`] and [`interval_seconds`] tell what a
//! request asks for.
//!
//! Above this crate stand the aircraft's contracts, the ground's table of requests, and the reading
//! of script lines. Begin with the types in `message.rt`, then `specs/Grammar.antt` for what an
//! encoding is and `specs/Faults.antt` for what a first fault is; both cite the tables of
//! `specs/Tables.antt`. That each payload is one or the other is a law over these definitions
//! (`laws.rt`). The decoder's private functions have exact contracts by `specs/Reading.antt`, a
//! function on lists that reads from left to right; `proofs/ReadingLaws.antt` ties it to the
//! definitions.
#![tactic(auto)]

mod decoding;
mod encoding;
mod kind;
mod laws;
mod message;
pub mod reason;
mod refusal;
mod tags;

pub use decoding::decode_uplink;
pub use encoding::encode_uplink;
pub use kind::{Kind, interval_seconds, kind_of};
pub use laws::{grammar_or_fault, uplink_or_fault, written_is_encoding};
pub use message::{Intent, Limits, Message, Moduli, Range, Uplink};
pub use refusal::Refusal;

#[cfg(test)]
mod tests;
