//! A keeper whose commits give receipts.

ghost use Rattle.std.specs.Prelude.{◌≡◌, IfOk, IsSome, OnErr, OnOk, Some};
ghost use Rattle.wf_keeper.specs.Keeping.{AddsNothing, HasCause, LeftGoes, Only, TablesGo, Tells};
ghost use Rattle.wf_keeper.specs.Rows.{applied};

use crate::batch::Batch;
use crate::keeper::{Keeper, StoreFault};
use crate::tables::Tables;
use std::marker::Model;

/// Shows that a batch was committed. Only [`Kept::commit`] makes one, where its keeper answered `Ok`.
#[derive(Debug, Drop)]
pub struct Receipt {
    pub(crate) place: u64,
}

impl Receipt {
    /// The place of the batch.
    pub fn place(&self) -> u64
        ensures { result ≡ self.now.place }
    {
        self.place
    }
}

/// A keeper that gives a receipt for each commit. Its promises are those of the keeper in it, as which contracts see it.
#[derive(Drop)]
pub struct Kept<K> {
    keeper: K,
}

impl<K> Model for Kept<K> {
    ghost Value = { K };

    ghost view = { λ k. k.keeper };
}

impl<K: Keeper> Kept<K> {
    pub fn new(keeper: K) -> Kept<K>
        ensures { result ≡ keeper }
    {
        Kept { keeper }
    }

    /// Reads the tables. Whatever it answers, they are as before.
    pub fn load(&mut self) -> Result<Tables, StoreFault>
        ensures told { (K.tells self.new → K.tells self.old) × (IsSome (K.tables self.new) → IsSome (K.tables self.old)) }
        ensures same { Tells (K.tables self.new) (λ t. K.tables self.old ≡ Some t) }
        ensures gives { Tells (K.tables self.new) (λ t. IfOk result (λ loaded. loaded ≡ t)) }
        ensures open { OnOk result (K.tells self.new → IsSome (K.tables self.new)) }
        ensures settles { K.tells self.new → Tells (K.tables self.old) (λ t. OnOk result (Only t (K.left self.new))) }
        ensures refused { K.tells self.new → OnErr result (AddsNothing (K.left self.old) (K.left self.new)) }
        ensures cause { HasCause (K.counted self.old) (K.counted self.new) result }
    {
        self.keeper.load()
    }

    /// Makes the changes of the batch, all of them or none, and gives a receipt of its place.
    pub fn commit(&mut self, batch: &Batch) -> Result<Receipt, StoreFault>
        ensures receipt { IfOk result (λ receipt. receipt.place ≡ batch.now.place) }
        ensures told { (K.tells self.new → K.tells self.old) × (IsSome (K.tables self.new) → IsSome (K.tables self.old)) }
        ensures tables { Tells (K.tables self.old) (λ t. TablesGo result t (applied batch.now.changes t) (K.tables self.new)) }
        ensures open { OnOk result (K.tells self.new → IsSome (K.tables self.new)) }
        ensures left { K.tells self.new → Tells (K.tables self.old) (λ t. LeftGoes result t (applied batch.now.changes t) (K.left self.old) (K.left self.new)) }
        ensures cause { HasCause (K.counted self.old) (K.counted self.new) result }
    {
        match self.keeper.commit(batch) {
            Ok(()) => Ok(Receipt {
                place: batch.place(),
            }),
            Err(fault) => Err(fault),
        }
    }

    /// The keeper's count of faults.
    pub fn faults(&self) -> u64
        ensures { result ≡ K.counted self.now }
    {
        self.keeper.faults()
    }

    /// Gives the keeper back.
    pub fn into_keeper(self) -> K
        ensures { result ≡ self }
    {
        self.keeper
    }
}
