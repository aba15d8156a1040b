//! Why a script was not run.

/// Why a script was not run.
#[derive(Clone, Copy, Debug, PartialEq, Eq)]
pub enum RunFault {
    /// A read of the source failed.
    Read,
    /// There was not enough memory.
    NoMemory,
}
