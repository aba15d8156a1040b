//! Scripts made from a number: large runs that anyone can repeat.
//!
//! A bench is tried with scripts of many lines, more than anyone wants to store. This crate makes such a script from a number and a count
//! of lines, the same at each call and on each machine: samples, times, the crew's emergency acts and texts from five ground addresses,
//! well-formed payloads and malformed ones, as the draws of a linear congruential generator give them. Each line is right, so that the
//! whole script runs. The command `make` of `adsc_bench` stands above.
//!
//! Begin with `specs/Draws.antt` (the generator), `specs/Generator.antt` (which line which draws give) and `specs/Texts.antt` (its text);
//! then read [`generate_script`]. `specs/Summaries.antt` says what the summary of a run is, which [`summarize`] writes, and `src/laws.rt` has the
//! laws: a script is read as what was drawn, each of its lines is taken, and it has one summary. What is made, and how, is this project's
//! profile.
#![tactic(auto)]

mod generator;
mod laws;
mod line;
mod script;
mod summary;
mod writing;

pub use laws::{
    a_generated_script_has_one_summary, drawn_lines_are_read_as_drawn,
    drawn_lines_are_within_limits, each_line_is_taken, scripts_are_read_as_drawn, worked_lines,
};
pub use line::{MadeLine, MadePayload, MadeSample};
pub use script::generate_script;
pub use summary::summarize;

#[cfg(test)]
mod tests;
