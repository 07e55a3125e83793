//! The answer that there was no memory.

use std::alloc::{AllocError, AllocFailed};

/// The memory that the call needed wasn't there.
#[derive(Clone, Copy, Debug, PartialEq, Eq)]
pub struct NoMemory;

impl From<AllocError> for NoMemory {
    fn from(_refused: AllocError) -> NoMemory {
        NoMemory
    }
}

impl<T: Drop> From<AllocFailed<T>> for NoMemory {
    fn from(_refused: AllocFailed<T>) -> NoMemory {
        NoMemory
    }
}

impl From<wf_doc::NoMemory> for NoMemory {
    fn from(_refused: wf_doc::NoMemory) -> NoMemory {
        NoMemory
    }
}

impl From<wf_flow::NoMemory> for NoMemory {
    fn from(_refused: wf_flow::NoMemory) -> NoMemory {
        NoMemory
    }
}

impl From<wf_machine::NoMemory> for NoMemory {
    fn from(_refused: wf_machine::NoMemory) -> NoMemory {
        NoMemory
    }
}
