//! Bytes in and out, with every fault counted, and the lines of an input.
//!
//! This crate is the ground on which all other crates of the repository read and write. A [`Source`] and a [`Sink`] are
//! traits with a written meaning: the bytes that are left, the bytes that were written, and a count of faults that never
//! falls. A call may answer a fault only where that count rose in this very call, so code above can't give up and blame
//! the device. `MemSource`, `SteadySource` and `MemSink` stand in memory, with chosen calls that fail, for tests;
//! `StdSource` and `StdSink` are thin adapters over the readers and writers of the standard library, for the program.
//! A [`LineReader`] answers the lines of a source one by one, in memory that it takes once, whatever pieces the source
//! gives. Above stand the crates that read scripts and write outputs, up to the bench: `show` and `run` read by a
//! `LineReader` and write by `write_all`.
//!
//! Begin with `specs/Causes.antt` (when a fault may be answered), then `traits.rt`, then `specs/Lines.antt` (what a line
//! is), `specs/Inputs.antt` (what stands at a number of an input, and which lines stand before its limit) and
//! `specs/Readers.antt` (what a reader does).
#![tactic(auto)]

mod failures;
mod laws;
mod limits;
mod line;
mod line_reader;
mod memory_input;
mod memory_output;
mod slices;
mod standard;
mod traits;
mod writing;

pub use failures::{Failed, NoMemory, ReadFault, WriteFault};
pub use laws::a_number_has_one_line;
pub use limits::{MAX_LINE_BYTES, MAX_SCRIPT_BYTES, MAX_SCRIPT_LINES};
pub use line::Line;
pub use line_reader::LineReader;
pub use memory_input::{MemSource, SteadySource};
pub use memory_output::MemSink;
pub use slices::next_line;
pub use standard::{StdSink, StdSource};
pub use traits::{Sink, Source};
pub use writing::write_all;

#[cfg(test)]
mod tests;
