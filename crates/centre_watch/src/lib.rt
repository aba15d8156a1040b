//! The centre that notices silence: when the periodic report of an aircraft is late.
//!
//! A centre that separates aircraft by periodic reports must know when one is late. A [`Watcher`] owns a centre and a clock. It asks,
//! cancels and hears as the centre does; a tick of the clock answers once that a report is late, at the moment that makes it so.
//! [`read_ground_line`] reads a line of a ground log, the log of what a ground system sees of one aircraft, and [`OutText`] is a text that
//! grows into room that was taken before. Ground logs and the watch are this project's profile.
//!
//! What is late, what a line says and what is written of a log is defined in `ground_rules`; below stand the centre (`centre_core`) and
//! the lines of scripts (`net_script`). Begin with `specs/Watching.antt` of `ground_rules`, then read `watcher` and `ground_line`.
#![tactic(auto)]

mod ground_line;
mod out_text;
mod watcher;

pub use ground_line::read_ground_line;
pub use ground_rules::GroundLine;
pub use out_text::OutText;
pub use watcher::Watcher;
