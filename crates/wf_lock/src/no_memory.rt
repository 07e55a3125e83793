//! The answer that there was no memory.

use std::alloc::AllocError;

/// The memory that the call needed wasn't there.
#[derive(Clone, Copy, Debug, PartialEq, Eq)]
pub struct NoMemory;

impl From<AllocError> for NoMemory {
    fn from(_refused: AllocError) -> NoMemory {
        NoMemory
    }
}
