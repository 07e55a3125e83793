//! Why a document wasn't filled.

ghost use Rattle.std.specs.Prelude.{◌≡◌};
ghost use Rattle.wf_expr.specs.declared.fault.FillFault.TheVariants.{NoMemory as Lacks};

use std::alloc::{AllocError, AllocFailed};
use wf_doc::NoMemory;

/// Why there is no filled document.
#[derive(Clone, Copy, Debug, PartialEq, Eq)]
pub enum FillFault {
    /// It passes the limit of length or of depth.
    TooLarge,
    /// The memory that the call needed wasn't there.
    NoMemory,
}

impl From<NoMemory> for FillFault {
    ghost from_gives = { λ _ fault. fault ≡ Lacks };

    fn from(_refused: NoMemory) -> FillFault {
        FillFault::NoMemory
    }
}

impl From<AllocError> for FillFault {
    ghost from_gives = { λ _ fault. fault ≡ Lacks };

    fn from(_refused: AllocError) -> FillFault {
        FillFault::NoMemory
    }
}

impl<T: Drop> From<AllocFailed<T>> for FillFault {
    ghost from_gives = { λ _ fault. fault ≡ Lacks };

    fn from(_refused: AllocFailed<T>) -> FillFault {
        FillFault::NoMemory
    }
}
