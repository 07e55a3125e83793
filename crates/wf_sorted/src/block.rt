//! A block: the few entries that move when one is put in or taken out.

ghost use Rattle.std.specs.Prelude.{◌≡◌, [], ◌++◌, ◌+◌, ◌<◌, ◌≤◌, ◌==◌, IfNone, IfOk, IfSome, is_some, length, slice_get, true, false, take, drop};
ghost use Rattle.std.specs.List.{insert, remove};
ghost use Rattle.std.specs.List.Sorted.{IsPartitionPoint};
ghost use Rattle.std.specs.Vec.{vec_capacity, vec_len};
ghost use Rattle.wf_sorted.specs.Blocks.{all_before};
ghost use Rattle.wf_sorted.specs.Order.{Rising, is_before, holds, put, without};

use crate::entry::Entry;
use crate::no_memory::NoMemory;
use std::alloc::Global;
use std::marker::Model;

/// How many entries a block has room for.
const SIZE: usize = 128;

/// Where a full block is split.
const HALF: usize = 64;

/// Up to 128 entries in their order. The memory for all of them is taken when the block is made.
#[derive(Drop)]
pub struct Block {
    items: Vec<Entry>,
}

impl Model for Block {
    ghost use Rattle.std.specs.Prelude.{List, ◌≤◌};
    ghost use Rattle.std.specs.Vec.{vec_capacity, vec_len};
    ghost use Rattle.wf_sorted.specs.declared.entry.Entry.{Entry as Placed};
    ghost use Rattle.wf_sorted.specs.Order.{Rising};

    ghost Value = { List Placed };

    ghost view = { λ b. b.items.items };

    ghost invariant = { λ b. (128 ≤ vec_capacity b.items) × (vec_len b.items ≤ 128) × Rising b.items.items };
}

impl Block {
    pub fn new(alloc: Global) -> Result<Block, NoMemory>
        ensures { IfOk result (λ block. block ≡ []) }
    {
        Ok(Block {
            items: Vec::with_capacity(alloc, SIZE)?,
        })
    }

    pub fn len(&self) -> usize
        ensures { result ≡ length self.now }
    {
        self.items.len()
    }

    pub fn is_full(&self) -> bool
        ensures full { result ≡ (length self.now == 128) }
        ensures few { length self.now ≤ 128 }
    {
        self.items.len() == SIZE
    }

    pub fn get(&self, place: usize) -> Option<Entry>
        ensures { result ≡ slice_get self.now place }
    {
        self.items.get(place).copied()
    }

    /// Whether all its entries come before this one; it looks at the last alone.
    pub fn ends_before(&self, entry: Entry) -> bool
        ensures { result ≡ all_before entry self.now }
    {
        match self.items.last() {
            Some(last) => last.is_before(entry),
            None => true,
        }
    }

    /// Puts the entry in its place.
    pub fn add(&mut self, entry: Entry)
        requires { length self.old < 128 }
        ensures { self.new ≡ put entry self.old }
    {
        let place = place_in(&self.items, entry);
        insert_at(&mut self.items, place, entry);
    }

    /// Puts the entry in its place in a full block, whose upper half moves to an empty one.
    pub fn add_and_split(&mut self, entry: Entry, upper: &mut Block)
        requires full { length self.old ≡ 128 }
        requires empty { upper.old ≡ [] }
        ensures entries { self.new ++ upper.new ≡ put entry self.old }
        ensures lower { 0 < length self.new }
        ensures upper { 0 < length upper.new }
    {
        self.split(upper);
        if self.ends_before(entry) {
            upper.add(entry);
        } else {
            self.add(entry);
        }
    }

    fn split(&mut self, upper: &mut Block)
        requires full { length self.old ≡ 128 }
        requires empty { upper.old ≡ [] }
        ensures lower { self.new ≡ take 64 self.old }
        ensures upper { upper.new ≡ drop 64 self.old }
    {
        let _ = upper.items.extend_from_slice(&self.items[HALF..]);
        self.items.truncate(HALF);
    }

    /// Takes the entry out once, and tells whether it was there.
    pub fn take_out(&mut self, entry: Entry) -> bool
        ensures there { result ≡ holds entry self.old }
        ensures entries { self.new ≡ without entry self.old }
    {
        let Some(place) = place_of(&self.items, entry) else {
            return false;
        };
        self.items.remove(place);
        true
    }
}

/// The place before which all entries come before this one; it is searched by halves.
fn place_in(items: &[Entry], entry: Entry) -> usize
    requires { Rising items.now }
    ensures bound { result ≤ length items.now }
    ensures parted { IsPartitionPoint (λ x. is_before x entry ≡ true) (λ x. is_before x entry ≡ false) items.now result }
{
    items.partition_point(|item| item.is_before(entry))
}

/// The place of the entry, where it is there.
fn place_of(items: &[Entry], entry: Entry) -> Option<usize>
    requires { Rising items.now }
    ensures there { is_some result ≡ holds entry items.now }
    ensures none { IfNone result (without entry items.now ≡ items.now) }
    ensures some { IfSome result (λ place. (place < length items.now) × (without entry items.now ≡ remove items.now place)) }
{
    let place = place_in(items, entry);
    if place < items.len() && items[place].is_same(entry) {
        Some(place)
    } else {
        None
    }
}

/// Inserts the entry into spare room.
fn insert_at(items: &mut Vec<Entry>, place: usize, entry: Entry)
    requires place { place ≤ vec_len items.old }
    requires room { vec_len items.old < vec_capacity items.old }
    ensures items { items.new.items ≡ insert items.old.items place entry }
    ensures len { vec_len items.new ≡ vec_len items.old + 1 }
    ensures capacity { vec_capacity items.old ≤ vec_capacity items.new }
{
    let _ = items.insert(place, entry);
}
