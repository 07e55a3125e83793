//! What keeps tables, and what a stop may leave of them.

ghost use Rattle.std.specs.Prelude.{◌≡◌, IfOk, IsSome, OnErr, OnOk, Some};
ghost use Rattle.wf_keeper.specs.declared.keeper.StoreFault.TheVariants.{NoMemory as Lacks};
ghost use Rattle.wf_keeper.specs.Keeping.{AddsNothing, HasCause, LeftGoes, Only, TablesGo, Tells};
ghost use Rattle.wf_keeper.specs.Rows.{applied};

use crate::batch::Batch;
use crate::no_memory::NoMemory;
use crate::tables::Tables;
use std::alloc::{AllocError, AllocFailed};

/// Why a keeper refused a call.
#[derive(Clone, Copy, Debug, PartialEq, Eq)]
pub enum StoreFault {
    /// The store failed, and the keeper's count of faults rose.
    Failed,
    /// The memory that the call needed wasn't there; the tables are as before.
    NoMemory,
}

impl From<NoMemory> for StoreFault {
    ghost from_gives = { λ _ fault. fault ≡ Lacks };

    fn from(_refused: NoMemory) -> StoreFault {
        StoreFault::NoMemory
    }
}

impl From<AllocError> for StoreFault {
    ghost from_gives = { λ _ fault. fault ≡ Lacks };

    fn from(_refused: AllocError) -> StoreFault {
        StoreFault::NoMemory
    }
}

impl<T: Drop> From<AllocFailed<T>> for StoreFault {
    ghost from_gives = { λ _ fault. fault ≡ Lacks };

    fn from(_refused: AllocFailed<T>) -> StoreFault {
        StoreFault::NoMemory
    }
}

/// Keeps tables, which it loads and changes by batches, through stops of the program.
///
/// `tables` are its tables, where it tells them. `left` says of tables whether a stop now may leave them; it counts where
/// `tells` holds, which may be so of a store that no longer tells its tables. `counted` is a count of its faults, which
/// never falls. What a keeper tells after a call it told before it.
///
/// A call that answers an error leaves tables as they were before it or as it would have made them, and nothing in
/// between. After `Failed` a store is opened again.
pub trait Keeper {
    ghost use Rattle.std.specs.Prelude.{Option, ℕ};
    ghost use Rattle.wf_keeper.specs.Rows.{Rows};

    ghost tables: { Self → Option Rows };

    ghost left: { Self → Rows → Type 0 };

    ghost tells: { Self → Type 0 };

    ghost counted: { Self → ℕ };

    /// Reads the tables. Whatever it answers, they are as before.
    fn load(&mut self) -> Result<Tables, StoreFault>
        ensures told { (tells self.new → tells self.old) × (IsSome (tables self.new) → IsSome (tables self.old)) }
        ensures same { Tells (tables self.new) (λ t. tables self.old ≡ Some t) }
        ensures gives { Tells (tables self.new) (λ t. IfOk result (λ loaded. loaded ≡ t)) }
        ensures open { OnOk result (tells self.new → IsSome (tables self.new)) }
        ensures settles { tells self.new → Tells (tables self.old) (λ t. OnOk result (Only t (left self.new))) }
        ensures refused { tells self.new → OnErr result (AddsNothing (left self.old) (left self.new)) }
        ensures cause { HasCause (counted self.old) (counted self.new) result };

    /// Makes the changes of the batch, all of them or none. After `Ok` a stop leaves the tables with them.
    fn commit(&mut self, batch: &Batch) -> Result<(), StoreFault>
        ensures told { (tells self.new → tells self.old) × (IsSome (tables self.new) → IsSome (tables self.old)) }
        ensures tables { Tells (tables self.old) (λ t. TablesGo result t (applied batch.now.changes t) (tables self.new)) }
        ensures open { OnOk result (tells self.new → IsSome (tables self.new)) }
        ensures left { tells self.new → Tells (tables self.old) (λ t. LeftGoes result t (applied batch.now.changes t) (left self.old) (left self.new)) }
        ensures cause { HasCause (counted self.old) (counted self.new) result };

    /// The count of faults.
    fn faults(&self) -> u64
        ensures { result ≡ counted self.now };
}
