//! Fields of output lines: what `run` and `show` both write.
//!
//! Lines of output have fields with commas between them. This crate appends the fields that several commands have: numbers
//! in decimal, hexadecimal digits, and what is wrong with a text from the ground or from the aircraft. `shown_lines` stands
//! above it for `show`, `adsc_run` for `run` and `generated_scripts` for `make`. Each call says how much room it needs, so that a caller that has the room
//! meets no want of memory; and the same fields are appended to a [`Line`], which takes none. Begin with specs/Fields.antt and
//! specs/Faults.antt, then `numbers`, `faults` and `line`.
#![tactic(auto)]

mod digits;
mod faults;
mod line;
mod numbers;

pub use digits::append_octets;
pub use faults::{append_envelope_fault, append_request_fault};
pub use line::{
    Line, push, push_decimal, push_envelope_fault, push_number, push_octets, push_request_fault,
};
pub use numbers::{append_decimal, append_number};

#[cfg(test)]
mod tests;
