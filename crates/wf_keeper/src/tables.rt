//! Tables: rows in the order of their keys.

ghost use Rattle.std.specs.Prelude.{◌≡◌, ◌↔◌, [], IfOk, OnErr, OnOk, IsTrue, length, option_map, slice_get, string_bytes};
ghost use Rattle.std.specs.Option.{option_copied};
ghost use Rattle.wf_keeper.specs.Rows.{IsOrdered, applied, changed, get, put, without};

use crate::batch::Batch;
use crate::change::Change;
use crate::no_memory::NoMemory;
use crate::row::{Row, body_at, put_row, remove_row};
use crate::row_key::RowKey;
use std::alloc::{AllocError, Global};
use std::marker::Model;

/// An ordered map from keys to bodies, seen as its rows in the order of their keys.
#[derive(Debug, Drop)]
pub struct Tables {
    rows: Vec<Row>,
}

impl Model for Tables {
    ghost use Rattle.wf_keeper.specs.Rows.{IsOrdered, Rows};

    ghost Value = { Rows };

    ghost view = { λ t. t.rows.items };

    ghost invariant = { λ t. IsOrdered t.rows.items };
}

impl Clone for Tables {
    ghost is_clone = { λ tables copy. copy ≡ tables };

    fn clone(&self) -> Result<Tables, AllocError> {
        Ok(Tables {
            rows: self.rows.clone()?,
        })
    }
}

impl Tables {
    /// No rows.
    pub fn new(alloc: Global) -> Tables
        ensures { result ≡ [] }
    {
        Tables {
            rows: Vec::new(alloc),
        }
    }

    /// How many rows there are.
    pub fn len(&self) -> usize
        ensures { result ≡ length self.now }
    {
        self.rows.len()
    }

    pub fn is_empty(&self) -> bool
        ensures { IsTrue result ↔ (self.now ≡ []) }
    {
        self.rows.is_empty()
    }

    /// The rows, in the order of their keys.
    pub fn rows(&self) -> &[Row]
        ensures value { result.now ≡ self.now }
        ensures order { IsOrdered self.now }
    {
        &self.rows
    }

    /// The row at that place of the order, counted from 0.
    pub fn at(&self, at: usize) -> Option<&Row>
        ensures { option_copied result ≡ slice_get self.now at }
    {
        self.rows.get(at)
    }

    /// The body at the key.
    pub fn get(&self, key: &RowKey) -> Option<&str>
        ensures { option_map (λ body. body.now) result ≡ get key.now self.now }
    {
        body_at(&self.rows, key)
    }

    /// Puts the body at the key, in the place of one that was there.
    pub fn set(&mut self, key: RowKey, body: String) -> Result<(), NoMemory>
        ensures ok { OnOk result (self.new ≡ put key (string_bytes body) self.old) }
        ensures err { OnErr result (self.new ≡ self.old) }
    {
        put_row(&mut self.rows, key, body)
    }

    /// Takes the row at the key away, where there is one. It takes no memory.
    pub fn remove(&mut self, key: &RowKey)
        ensures { self.new ≡ without key.now self.old }
    {
        remove_row(&mut self.rows, key);
    }

    /// Tables with the changes of the batch, in their order. These ones stay.
    pub fn with(&self, batch: &Batch) -> Result<Tables, NoMemory>
        ensures { IfOk result (λ made. made ≡ applied batch.now.changes self.now) }
    {
        let mut made = self.clone()?;
        for change in batch.changes() {
            make(&mut made, change)?;
        }
        Ok(made)
    }
}

/// Makes one change.
fn make(tables: &mut Tables, change: &Change) -> Result<(), NoMemory>
    ensures ok { OnOk result (tables.new ≡ changed tables.old change.now) }
    ensures err { OnErr result (tables.new ≡ tables.old) }
{
    match change.copy_body()? {
        Some(body) => tables.set(change.key().clone()?, body),
        None => {
            tables.remove(change.key());
            Ok(())
        }
    }
}
