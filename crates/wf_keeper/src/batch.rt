//! Batches of changes.

ghost use Rattle.std.specs.Prelude.{◌≡◌, ◌↔◌, ◌+◌, ◌<◌, ◌≤◌, [], ◌∷◌, ◌++◌, IsOk, OnErr, OnOk, IsTrue, Some, None, length, slice_get};
ghost use Rattle.std.specs.Option.{option_copied};
ghost use Rattle.std.specs.Vec.{vec_capacity, vec_len};
ghost use Rattle.wf_keeper.specs.Keys.{deletes, puts};

use crate::change::Change;
use crate::no_memory::NoMemory;
use crate::row_key::RowKey;
use std::alloc::Global;
use std::marker::Model;

/// A list of changes that are made together, in their order, and the place that it is of: a count of entries, of which
/// a keeper knows nothing.
///
/// Contracts see the spare room as a number: so many more changes are taken without memory.
#[derive(Drop)]
pub struct Batch {
    alloc: Global,
    place: u64,
    changes: Vec<Change>,
}

impl Model for Batch {
    ghost use Rattle.std.specs.Prelude.{◌-◌};
    ghost use Rattle.std.specs.Vec.{vec_capacity, vec_len};
    ghost use Rattle.wf_keeper.specs.Keys.{Batch as BatchState};

    ghost Value = { BatchState };

    ghost view = { λ b. record { place = b.place; changes = b.changes.items; spare = vec_capacity b.changes - vec_len b.changes } };
}

impl Batch {
    /// No changes. It takes no memory.
    pub fn new(alloc: Global, place: u64) -> Batch
        ensures place { result.place ≡ place }
        ensures changes { result.changes ≡ [] }
    {
        Batch {
            alloc,
            place,
            changes: Vec::new(alloc),
        }
    }

    /// The place.
    pub fn place(&self) -> u64
        ensures { result ≡ self.now.place }
    {
        self.place
    }

    /// The same changes, for another place. It takes no memory.
    pub fn at_place(self, place: u64) -> Batch
        ensures { result ≡ record self { place = place } }
    {
        Batch {
            alloc: self.alloc,
            place,
            changes: self.changes,
        }
    }

    /// Adds the put of a body at a key. Where memory is wanting nothing is added.
    pub fn put(&mut self, key: RowKey, body: &str) -> Result<(), NoMemory>
        ensures place { self.new.place ≡ self.old.place }
        ensures ok { OnOk result (self.new.changes ≡ self.old.changes ++ puts key body.now ∷ []) }
        ensures err { OnErr result (self.new.changes ≡ self.old.changes) }
        ensures room { self.old.spare ≤ self.new.spare + 1 }
    {
        let body = String::from_str(self.alloc, body)?;
        self.changes.push(Change::put(key, body))?;
        Ok(())
    }

    /// Adds the delete of a key's row, which needn't be there. Where memory is wanting nothing is added; where there is
    /// spare room it takes none.
    pub fn delete(&mut self, key: RowKey) -> Result<(), NoMemory>
        ensures place { self.new.place ≡ self.old.place }
        ensures ok { OnOk result (self.new.changes ≡ self.old.changes ++ deletes key ∷ []) }
        ensures err { OnErr result (self.new.changes ≡ self.old.changes) }
        ensures room { self.old.spare ≤ self.new.spare + 1 }
        ensures succeeds { 0 < self.old.spare → IsOk result }
    {
        self.changes.push(Change::delete(key))?;
        Ok(())
    }

    /// How many changes there are.
    pub fn len(&self) -> usize
        ensures { result ≡ length self.now.changes }
    {
        self.changes.len()
    }

    pub fn is_empty(&self) -> bool
        ensures { IsTrue result ↔ (self.now.changes ≡ []) }
    {
        self.changes.is_empty()
    }

    /// The change at that place of the list, counted from 0.
    pub fn get(&self, at: usize) -> Option<&Change>
        ensures { option_copied result ≡ slice_get self.now.changes at }
    {
        self.changes.get(at)
    }

    /// The changes, in their order.
    pub fn changes(&self) -> &[Change]
        ensures { result.now ≡ self.now.changes }
    {
        &self.changes
    }

    /// Makes room for that many more. Where memory is wanting the room stays as it is.
    pub fn reserve(&mut self, more: usize) -> Result<(), NoMemory>
        ensures place { self.new.place ≡ self.old.place }
        ensures changes { self.new.changes ≡ self.old.changes }
        ensures room { OnOk result (more ≤ self.new.spare) }
        ensures kept { self.old.spare ≤ self.new.spare }
        ensures succeeds { more ≤ self.old.spare → IsOk result }
    {
        self.changes.reserve(more)?;
        Ok(())
    }

    /// Takes the changes of another batch behind its own. It takes no memory.
    pub fn append(&mut self, other: Batch)
        requires { length other.changes ≤ self.old.spare }
        ensures place { self.new.place ≡ self.old.place }
        ensures changes { self.new.changes ≡ self.old.changes ++ other.changes }
        ensures room { self.old.spare ≤ self.new.spare + length other.changes }
    {
        append_all(&mut self.changes, other.changes);
    }
}

/// Puts the others into spare room.
fn append_all(changes: &mut Vec<Change>, mut others: Vec<Change>)
    requires { vec_len changes.old + vec_len others ≤ vec_capacity changes.old }
    ensures items { changes.new.items ≡ changes.old.items ++ others.items }
    ensures len { vec_len changes.new ≡ vec_len changes.old + vec_len others }
    ensures capacity { vec_capacity changes.old ≤ vec_capacity changes.new }
{
    let _ = changes.append(&mut others);
}
