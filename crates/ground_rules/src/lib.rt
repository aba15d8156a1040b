//! Ground logs and the watch over overdue reports, as definitions: what a line of a ground log says, what it does, when a report of a
//! periodic contract is late, and what is written of it.
//!
//! A ground log is what a ground system sees of one aircraft: its clock, what its centres ask and cancel, and the texts that they hear.
//! The lines are read and walked one by one. What happens is one log; the past of each centre, its history with its ticks, is a function
//! of it, and so is the output. What a line that starts centres again does is a parameter of the walk: in `watch` such a line is bad.
//! The crate has no code but the types that the definitions speak of. Ground logs and the watch are this project's profile.
//!
//! Below stand the definitions of script lines, of a centre and of what centres do in a run (`run_rules`); above stands `centre_watch`,
//! whose contracts cite these. Begin with `specs/Watching.antt` (when a report is late), then `specs/GroundLines.antt` and
//! `specs/GroundReadings.antt` (lines), `specs/Walks.antt` (what lines do), `specs/WatchedText.antt` (the output) and `src/laws.rt`.
#![tactic(auto)]

mod laws;
mod line;

pub use laws::worked_ground_logs;
pub use line::GroundLine;
