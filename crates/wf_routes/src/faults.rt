//! Why a call gives no answer.

use std::alloc::{AllocError, AllocFailed};

/// The memory that the call needed wasn't there.
#[derive(Clone, Copy, Debug, PartialEq, Eq)]
pub struct NoMemory;

impl From<AllocError> for NoMemory {
    fn from(_refused: AllocError) -> NoMemory {
        NoMemory
    }
}

impl<T: Drop> From<AllocFailed<T>> for NoMemory {
    fn from(_refused: AllocFailed<T>) -> NoMemory {
        NoMemory
    }
}

/// Why a path and a method ask for nothing.
#[derive(Clone, Copy, Debug, PartialEq, Eq)]
pub enum Unrouted {
    /// The table has no such path.
    NoRoute,
    /// The path has no such method.
    BadMethod,
}
