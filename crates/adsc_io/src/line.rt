//! What stands at a line of an input.

/// What a reader of lines finds next in its input. The limits are this project's profile.
#[derive(Clone, Copy, Debug, PartialEq, Eq)]
pub enum Line {
    /// A line of at most 4,096 bytes, which the reader lends without its newline.
    Text,
    /// No line: the input has ended.
    End,
    /// A line of more than 4,096 bytes. It was read to its end and dropped.
    TooLong,
    /// A line over the limit of 200,000 lines or of 67,108,864 bytes, newlines included. Nothing behind it is read as lines.
    Limit {
        /// The number of the line, counted from 1.
        line: u32,
    },
}
