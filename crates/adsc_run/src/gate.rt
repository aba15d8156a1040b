//! What is told of each entry of a burst.

/// Is told when a worker takes an entry of a burst. Tests make one worker wait for another by it. This project's profile.
pub trait Gate: Sync {
    /// Is called by the worker before it takes the entry of the line of this number.
    fn before(&self, line: u32);

    /// Is called by the worker when the entry of the line of this number was taken.
    fn after(&self, line: u32);
}

/// The gate that does nothing.
#[derive(Clone, Copy, Debug)]
pub struct Free;

impl Gate for Free {
    fn before(&self, _line: u32) {}

    fn after(&self, _line: u32) {}
}
