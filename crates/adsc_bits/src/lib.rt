//! Writing and reading fields of bits, the most significant first, as the downlinks of ADS-C are
//! laid out (this project's profile).
//!
//! A `BitWriter` gathers fields and gives whole octets; a `BitReader` takes fields from octets, and
//! says at which bit a field is cut short. The crates of report groups and downlinks stand
//! above it, and write and read their fields with these two types. Begin with `writer` and
//! `reader`; what a list of bits is, and reading as a function, is defined in the crate
//! `bit_terms`.
#![tactic(auto)]

mod reader;
mod shifts;
mod writer;

pub use reader::{BitReader, Short};
pub use writer::BitWriter;

#[cfg(test)]
mod tests;
