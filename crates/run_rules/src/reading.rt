//! What a line of a script says.

use ground_texts::GroundText;
use net_script::{Code, ScriptLine};

/// What a line of a script says at its place, or why it is bad. The script language is this project's profile.
#[derive(Debug, Drop, PartialEq, Eq)]
pub enum Reading {
    /// The line is bad.
    Bad {
        /// What is wrong with it.
        code: Code,
        /// The value that belongs to the code.
        value: u32,
    },
    /// A right line of any letter but `U`.
    Says(ScriptLine),
    /// A `U` line, with what its text says.
    Brings(GroundText),
}
