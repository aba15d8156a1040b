//! The bits of the air-ground messages as mathematics: the bits of a number, of octets and of a
//! signed field, and reading as a function.
//!
//! This crate has definitions and laws alone, and no code. Everything that writes or reads bits
//! stands above it: `adsc_bits` says by it what its writer writes and its reader reads, and the
//! crates of groups, downlinks and envelopes say by it what octets say. Begin with
//! specs/Bits.antt, then specs/Reading.antt; proofs/ has the laws.
#![tactic(auto)]
