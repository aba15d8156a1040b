//! The bench: all that the program does, over any source and any sink.
//!
//! `top` takes the words of the command line. On `run N` it reads a script from the source, runs it against an aircraft and its ground
//! centres on N workers, and writes what came of it to the sink; on `show` it reads texts, and writes what they say; on `make NUMBER LINES` it
//! generates a script, runs it, and writes its summary. Its clauses say
//! what was written, and when each status may come; and where a script was carried out whole, what a centre shows confirmed was
//! accepted by the aircraft, unless the centre reused a number too early. The program `bench_program` stands above it and hands in
//! the real input and output.
//! Begin with `specs/Running.antt`, which says what `run` promises, with `specs/Showing.antt`, which says what `show` promises, or with
//! `specs/Making.antt`, which says what `make` promises; then read `bench`.
#![tactic(auto)]

mod bench;
mod laws;
mod making;
mod running;
mod showing;
mod status;
#[cfg(test)]
mod tests;
mod words;

pub use adsc_run::{Free, Gate};
pub use bench::top;
pub use laws::an_input_has_one_shown_text;
pub use making::make;
pub use running::run;
pub use showing::show;
pub use status::Status;
