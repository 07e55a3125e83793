//! Ordered maps from texts.

ghost use Rattle.std.specs.Prelude.{◌≡◌, ◌+◌, ◌≤◌, ◌<◌, ◌↔◌, [], ◌∷◌, ◌++◌, IfOk, OnOk, OnErr, length, slice_get, slice_set, IsTrue, option_map, if◌then◌else◌};
ghost use Rattle.std.specs.Option.{option_copied};
ghost use Rattle.std.specs.List.{insert};

use crate::no_memory::NoMemory;
use crate::text::Text;
use std::alloc::Global;
use std::cmp::Ordering;
use std::marker::Model;
use std::sync::Arc;

/// A key and its value.
#[derive(Drop)]
pub struct Entry<T> {
    pub key: Text,
    pub value: T,
}

/// An entry that equal maps hold together, so that a copy of a map copies no entry.
#[derive(Drop)]
pub struct SharedEntry<T> {
    held: Arc<Entry<T>, Global>,
}

impl<T> Model for SharedEntry<T> {
    ghost use Rattle.wf_doc.specs.declared.fields.Entry.{Entry};

    ghost Value = { Entry T };

    ghost view = { λ e. e.held.value };
}

impl<T: Drop> SharedEntry<T> {
    fn new(alloc: Global, key: Text, value: T) -> Result<SharedEntry<T>, NoMemory>
        ensures { IfOk result (λ made. made ≡ entry key value) }
    {
        Ok(SharedEntry {
            held: Arc::new(alloc, Entry { key, value })?,
        })
    }
}

impl<T> SharedEntry<T> {
    /// The same entry for another map.
    fn share(&self) -> Result<SharedEntry<T>, NoMemory>
        ensures { IfOk result (λ made. made ≡ self.now) }
    {
        Ok(SharedEntry {
            held: Arc::try_clone(&self.held)?,
        })
    }

    pub fn key(&self) -> &Text
        ensures { result.now ≡ self.now.key }
    {
        &self.held.key
    }

    pub fn value(&self) -> &T
        ensures { result.now ≡ self.now.value }
    {
        &self.held.value
    }
}

/// An ordered map from texts, seen as its entries in the order of their keys.
#[derive(Drop)]
pub struct Fields<T> {
    items: Vec<SharedEntry<T>>,
}

impl<T> Model for Fields<T> {
    ghost use Rattle.std.specs.Prelude.{List};
    ghost use Rattle.wf_doc.specs.declared.fields.Entry.{Entry};
    ghost use Rattle.wf_doc.specs.Fields.{IsOrdered};

    ghost Value = { List (Entry T) };

    ghost view = { λ f. f.items.items };

    ghost invariant = { λ f. IsOrdered f.items.items };
}

ghost use Rattle.wf_doc.specs.Fields.{get, put, entry, IsOrdered};

/// Where the key stands or belongs, and whether it stands there.
fn place<T>(items: &[SharedEntry<T>], key: &str) -> (usize, bool)
    ensures within { result.0 ≤ length items.now }
    ensures inside { IsTrue result.1 → result.0 < length items.now }
    ensures put { (v : T) → put key.now v items.now
        ≡ (if result.1 then slice_set items.now result.0 (entry key.now v) else insert items.now result.0 (entry key.now v)) }
{
    for (i, item) in items.iter().enumerate() {
        match key.cmp(item.key().as_str()) {
            Ordering::Less => return (i, false),
            Ordering::Equal => return (i, true),
            Ordering::Greater => {}
        }
    }
    (items.len(), false)
}

impl<T> Fields<T> {
    pub fn new(alloc: Global) -> Fields<T>
        ensures { result ≡ [] }
    {
        Fields {
            items: Vec::new(alloc),
        }
    }

    pub fn len(&self) -> usize
        ensures { result ≡ length self.now }
    {
        self.items.len()
    }

    pub fn is_empty(&self) -> bool
        ensures { IsTrue result ↔ (self.now ≡ []) }
    {
        self.items.is_empty()
    }

    /// The entries, in the order of their keys.
    pub fn entries(&self) -> &[SharedEntry<T>]
        ensures value { result.now ≡ self.now }
        ensures order { IsOrdered self.now }
    {
        &self.items
    }

    /// The entry at a place, counted from 0.
    pub fn at(&self, at: usize) -> Option<&SharedEntry<T>>
        ensures { option_copied result ≡ slice_get self.now at }
    {
        self.items.get(at)
    }

    /// The value at the key.
    pub fn get(&self, key: &str) -> Option<&T>
        ensures { option_map (λ v. v.now) result ≡ get key.now self.now }
    {
        for item in &self.items {
            match key.cmp(item.key().as_str()) {
                Ordering::Less => return None,
                Ordering::Equal => return Some(item.value()),
                Ordering::Greater => {}
            }
        }
        None
    }
}

impl<T: Drop> Fields<T> {
    /// An equal map, which holds the same entries.
    pub fn share(&self, alloc: Global) -> Result<Fields<T>, NoMemory>
        ensures { IfOk result (λ made. made ≡ self.now) }
    {
        let mut items = Vec::with_capacity(alloc, self.items.len())?;
        for item in &self.items {
            items.push(item.share()?)?;
        }
        Ok(Fields { items })
    }

    /// Puts the value at the key, in the place of one that was there.
    pub fn set(&mut self, key: Text, value: T) -> Result<(), NoMemory>
        ensures ok { OnOk result (self.new ≡ put key value self.old) }
        ensures err { OnErr result (self.new ≡ self.old) }
    {
        let (at, found) = place(&self.items, key.as_str());
        let entry = SharedEntry::new(*self.items.allocator(), key, value)?;
        if found {
            self.items[at] = entry;
        } else {
            self.items.insert(at, entry)?;
        }
        Ok(())
    }

    /// Adds an entry whose key is above all others, without looking for its place.
    pub fn add_last(&mut self, key: Text, value: T) -> Result<(), NoMemory>
        requires { IsOrdered (self.old ++ entry key value ∷ []) }
        ensures ok { OnOk result (self.new ≡ self.old ++ entry key value ∷ []) }
        ensures err { OnErr result (self.new ≡ self.old) }
    {
        let entry = SharedEntry::new(*self.items.allocator(), key, value)?;
        self.items.push(entry)?;
        Ok(())
    }
}
