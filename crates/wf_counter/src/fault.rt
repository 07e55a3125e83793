//! Why a count ended.

use std::alloc::AllocFailed;
use wf_lock::{NoMemory, Spent};

/// Why a count ended before its last addition.
#[derive(Clone, Copy, Debug, Drop, PartialEq, Eq)]
pub enum CountFault {
    /// The answers found no memory.
    NoMemory,
    /// The lock's tickets are used up.
    Spent(Spent),
}

impl From<Spent> for CountFault {
    fn from(spent: Spent) -> CountFault {
        CountFault::Spent(spent)
    }
}

impl From<NoMemory> for CountFault {
    fn from(_refused: NoMemory) -> CountFault {
        CountFault::NoMemory
    }
}

impl<T: Drop> From<AllocFailed<T>> for CountFault {
    fn from(_refused: AllocFailed<T>) -> CountFault {
        CountFault::NoMemory
    }
}
