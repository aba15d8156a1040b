//! What can fail.
use std::alloc::{AllocError, AllocFailed};
use thiserror::Error;

/// A source or a sink failed in this call. It comes only where its count of faults rose, or stands at the end of its
/// counter, and nothing was read or written. This project's profile.
#[derive(Clone, Copy, Debug, PartialEq, Eq, Error)]
#[error("the device failed")]
pub struct Failed;

/// There was not enough memory: the one answer that no contract ties to a cause, since no clause can see what memory is
/// left. This project's profile.
#[derive(Clone, Copy, Debug, PartialEq, Eq, Error)]
#[error("out of memory")]
pub struct NoMemory;

/// The input could not be read. It comes only where the source's count of faults rose, or stands at the end of its
/// counter. This project's profile.
#[derive(Clone, Copy, Debug, PartialEq, Eq, Error)]
#[error("the input could not be read")]
pub struct ReadFault;

/// The output could not be written. It comes only where the sink's count of faults rose, or stands at the end of its
/// counter. This project's profile.
#[derive(Clone, Copy, Debug, PartialEq, Eq, Error)]
#[error("the output could not be written")]
pub struct WriteFault;

impl From<AllocError> for NoMemory {
    fn from(_: AllocError) -> NoMemory {
        NoMemory
    }
}

impl<T: Drop> From<AllocFailed<T>> for NoMemory {
    fn from(_: AllocFailed<T>) -> NoMemory {
        NoMemory
    }
}
