//! The limits of a script, each said once. This project's profile.

/// The most lines that a script may have.
pub const MAX_SCRIPT_LINES: u32 = 200_000;

/// The most bytes that a script may have, its newlines included.
pub const MAX_SCRIPT_BYTES: usize = 67_108_864;

/// The most bytes that a line of a script may have, without its newline.
pub const MAX_LINE_BYTES: usize = 4_096;
