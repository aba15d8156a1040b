//! Flight samples: what an aircraft knows of its flight at one moment, and the text that says it.
//!
//! An ADS-C report is made of measured and predicted quantities: position, time, figure of merit, waypoints, vectors and
//! weather. A [`Sample`] holds them all, each in its range, so that whoever encodes a report needs no test. A [`SampleReader`]
//! reads samples from the columns of the sample lines of a script, one line after the other, and names the first wrong column
//! of a line; [`read_sample`] reads one line alone. The module [`decimal`] reads single decimal numbers, which the other lines
//! of a script have too.
//!
//! This crate stands on no other of the repository. Above it stand the event watches and the contracts of an aircraft, which
//! compare and report samples, and the reader of script lines.
//!
//! Begin with `src/sample.rt` (the sample), then `specs/Columns.antt` (the columns and their ranges), `specs/Decimals.antt`
//! (the text of a number), `specs/SampleText.antt` (the text of a sample and its faults), `src/read.rt`, and `src/laws.rt`: a
//! sample and a number have one text. A right line is read in one pass (`src/sight.rt`); any other is read again, column by
//! column (`src/row.rt`), to find what is wrong with it.
#![tactic(auto)]

mod columns;
pub mod decimal;
mod feed;
mod laws;
mod read;
mod row;
pub mod sample;
mod sight;
mod splitter;

pub use decimal::NumberFault as ColumnWhy;
pub use laws::{a_number_has_one_text, a_sample_has_one_text, a_sample_is_its_values};
pub use read::{LONGEST_COLUMNS, SampleReader, SampleRefusal, is_plain, read_sample};
pub use sample::Sample;

#[cfg(test)]
mod tests;
