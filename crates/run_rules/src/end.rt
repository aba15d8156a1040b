//! How a run ends.

use net_script::BadLine;

/// How the run of a script ended. This project's profile.
#[derive(Clone, Copy, Debug, PartialEq, Eq)]
pub enum End {
    /// All lines were carried out.
    Done,
    /// This line is bad. All lines before it were carried out.
    Bad(BadLine),
    /// This line is over the limit of lines or bytes. All lines before it were carried out.
    Limit {
        /// The line's number, counted from 1.
        line: u32,
    },
}
