//! The run of a script: its lines are read one by one, judged and carried out, up to the end or to the first that is bad, and what
//! comes of it is written.
//!
//! [`run_script`] reads a line, judges it and carries it out before it reads the next: the aircraft takes texts, samples, ticks and
//! acts of the crew, and the centres of its links ask, cancel and hear. The entries of a burst of `U` and `B` lines are entered before
//! the next other line, by workers that run at once. Its answer is the [`Outcome`], and [`write_outcome`] writes that out and
//! takes no memory. Both are promised in the words of `run_rules`: the outcome is that of the script under an order that so many
//! workers may take. Scripts and outputs are this project's profile.
//!
//! Below stand the definitions of runs, the readers of lines and texts, the aircraft and the centre; above stands the bench with its
//! commands. Begin with `specs/Outcomes.antt` (what is promised) and `run`; then `feed` (the next line), `head` (the first three
//! lines), `course`, `lines`, `texts` and `centres` (what a line does), `station` (a centre on its link), `burst`, `lists` and `workers`
//! (how a burst is entered, on threads over the craft that `link_threads` shares), and `output`.
#![tactic(auto)]

mod burst;
mod carried;
mod centres;
mod course;
mod ending;
mod fault;
mod feed;
mod gate;
mod head;
mod lines;
mod links;
mod lists;
mod outbox;
mod outcome;
mod output;
#[cfg(test)]
mod output_tests;
mod run;
mod station;
mod stations;
mod texts;
#[cfg(test)]
mod worker_tests;
mod workers;

pub use fault::RunFault;
pub use gate::{Free, Gate};
pub use outcome::{CentreRow, Outcome};
pub use output::write_outcome;
pub use run::run_script;
pub use run_rules::{End, RefusedLine, RefusedWhy};
