//! A keeper of memory, with faults at will.

ghost use Rattle.std.specs.Prelude.{◌≡◌, [], ◌∷◌, IfOk, IsSome, OnErr, OnOk, Some, length, slice_get};
ghost use Rattle.std.specs.Option.{option_copied};
ghost use Rattle.wf_keeper.specs.Keeping.{AddsNothing, HasCause, LeftGoes, Only, TablesGo, Tells};
ghost use Rattle.wf_keeper.specs.Memory.{IsMemoryCommit, IsMemoryLoad, none_made, stops};
ghost use Rattle.wf_keeper.specs.Rows.{applied};

use crate::batch::Batch;
use crate::calls::Calls;
use crate::keeper::{Keeper, StoreFault};
use crate::no_memory::NoMemory;
use crate::tables::Tables;
use std::alloc::Global;
use std::marker::Model;
use std::mem;

/// Keeps tables in memory, fails at the calls that it was told, and keeps what a stop at each moment leaves: the tables
/// that it was given, and those after each commit.
#[derive(Drop)]
pub struct MemoryKeeper {
    earlier: Vec<Tables>,
    tables: Tables,
    calls: Calls,
}

impl Model for MemoryKeeper {
    ghost use Rattle.wf_keeper.specs.Memory.{Memory};

    ghost Value = { Memory };

    ghost view = { λ k. record { earlier = k.earlier.items; tables = k.tables; calls = k.calls } };
}

impl MemoryKeeper {
    /// A keeper of these tables. Loads and commits are counted together from 1, and those fail whose numbers are in
    /// `fails`.
    pub fn new(alloc: Global, tables: Tables, fails: &[u64]) -> Result<MemoryKeeper, NoMemory>
        ensures { IfOk result (λ keeper. keeper ≡ record { earlier = []; tables = tables; calls = none_made fails.now }) }
    {
        Ok(MemoryKeeper {
            earlier: Vec::new(alloc),
            tables,
            calls: Calls::new(fails.to_vec(alloc)?),
        })
    }

    /// How many tables stops have left so far, or would have.
    pub fn stops(&self) -> u64
        ensures { result ≡ length (stops self.now) }
    {
        self.earlier.len() as u64 + 1
    }

    /// What a stop after that many commits left, or would have.
    pub fn stop(&self, at: u64) -> Option<&Tables>
        ensures { option_copied result ≡ slice_get (stops self.now) at }
    {
        let at = at as usize;
        if at == self.earlier.len() {
            return Some(&self.tables);
        }
        self.earlier.get(at)
    }

    /// The present tables.
    pub fn tables(&self) -> &Tables
        ensures { result.now ≡ self.now.tables }
    {
        &self.tables
    }
}

impl Keeper for MemoryKeeper {
    ghost use Rattle.std.specs.Prelude.{◌≡◌, Some};

    ghost tables = { λ k. Some k.tables };

    ghost left = { λ k t. t ≡ k.tables };

    ghost tells = { λ k. Unit {0} };

    ghost counted = { λ k. k.calls.faults };

    fn load(&mut self) -> Result<Tables, StoreFault>
        ensures exact { IsMemoryLoad self.old result self.new }
        ensures told { (Unit {0} → Unit {0}) × (IsSome (Some self.new.tables) → IsSome (Some self.old.tables)) }
        ensures same { Tells (Some self.new.tables) (λ t. Some self.old.tables ≡ Some t) }
        ensures gives { Tells (Some self.new.tables) (λ t. IfOk result (λ loaded. loaded ≡ t)) }
        ensures open { OnOk result (Unit {0} → IsSome (Some self.new.tables)) }
        ensures settles { Unit {0} → Tells (Some self.old.tables) (λ t. OnOk result (Only t (λ x. x ≡ self.new.tables))) }
        ensures refused { Unit {0} → OnErr result (AddsNothing (λ x. x ≡ self.old.tables) (λ x. x ≡ self.new.tables)) }
        ensures cause { HasCause self.old.calls.faults self.new.calls.faults result }
    {
        if self.calls.fails_next() {
            self.calls.count_failed();
            return Err(StoreFault::Failed);
        }
        self.calls.count();
        Ok(self.tables.clone()?)
    }

    fn commit(&mut self, batch: &Batch) -> Result<(), StoreFault>
        ensures exact { IsMemoryCommit self.old batch.now.changes result self.new }
        ensures told { (Unit {0} → Unit {0}) × (IsSome (Some self.new.tables) → IsSome (Some self.old.tables)) }
        ensures tables { Tells (Some self.old.tables) (λ t. TablesGo result t (applied batch.now.changes t) (Some self.new.tables)) }
        ensures open { OnOk result (Unit {0} → IsSome (Some self.new.tables)) }
        ensures left { Unit {0} → Tells (Some self.old.tables) (λ t. LeftGoes result t (applied batch.now.changes t) (λ x. x ≡ self.old.tables) (λ x. x ≡ self.new.tables)) }
        ensures cause { HasCause self.old.calls.faults self.new.calls.faults result }
    {
        if self.calls.fails_next() {
            self.calls.count_failed();
            return Err(StoreFault::Failed);
        }
        self.calls.count();
        let next = self.tables.with(batch)?;
        self.earlier.reserve(1)?;
        let before = mem::replace(&mut self.tables, next);
        let _ = self.earlier.push(before);
        Ok(())
    }

    fn faults(&self) -> u64 {
        self.calls.faults()
    }
}
