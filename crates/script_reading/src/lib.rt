//! How a line of a script is read: where it may stand, what it says, and what its text says.
//!
//! [`read_line`] reads one line by its number and its bytes. What it finds is said in the words of `run_rules` (`ReadsLine`), and what
//! every line holds that was read so, by `specs/Readable.antt`. `specs/Passing.antt` says how far the lines of a source were passed, for
//! whoever reads them one by one and keeps none; its laws stand in `proofs/PassingLaws.antt`. The script language is this project's
//! profile.
//!
//! Below stand the definitions of runs and the readers of lines and texts; above stand the run of a script and the audit of a log. Begin
//! with `reading`.
#![tactic(auto)]

mod placed;
mod reading;

pub use reading::{read_line, say_bad};
