//! The script language: what a line says, or why it is bad.
//!
//! A script is written by hand or by a generator. Each of its lines is a letter and fields with commas between them, and says
//! one thing: who the aircraft is, what it measured, what came from the ground, what a centre asks. [`read_script_line`] reads
//! one line by its form alone. It answers the line's value as a [`ScriptLine`], or the line's first fault as a [`Code`] with the
//! value that finds the place, both exactly where the definitions say so. It is lent one reader of samples for all lines of a
//! run. The language is this project's profile; the names and payloads in it follow ARINC 622 and RTCA DO-258A / EUROCAE
//! ED-100A.
//!
//! Below stand the crates whose forms the fields have: names and hexadecimal in `acars_envelope`, samples and decimal numbers in
//! `flight_samples`, requests in `adsc_requests`, what a line is in `adsc_io`, who an aircraft is in `aircraft_core`, and its
//! profile in `due_event`. Above stands whoever runs a script. The faults that need what stands before a line, as an address
//! that isn't listed, are judged there, and so is where a line of which letter may stand, for which [`has_letter`] tells whether
//! a line has a [`Letter`].
//!
//! Begin with `specs/Lines.antt` (what a line says), `specs/Forms.antt` (the form of each field), `specs/Addresses.antt` (what a
//! `G` line lists) and `specs/Faults.antt` (the first fault), then read `src/read.rt` from its end. The limits stand in
//! [`limits`]. That the definitions leave no line out is a law of its own,
//! [`each_line_says_something_or_has_a_fault`].
#![tactic(auto)]

mod addresses;
mod bytes;
mod content;
mod counts;
mod fields;
mod ground;
mod laws;
mod letter;
pub mod limits;
mod line;
mod names;
mod read;
mod refusal;
mod request;
mod sample;
#[cfg(test)]
mod tests;
mod values;

pub use addresses::Addresses;
pub use fields::{behind_comma, field_at};
pub use laws::each_line_says_something_or_has_a_fault;
pub use letter::{Letter, has_letter};
pub use line::{Cancel, ScriptLine};
pub use read::read_script_line;
pub use refusal::{BadLine, Code, LineRefusal};
