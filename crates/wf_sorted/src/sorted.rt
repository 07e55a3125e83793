//! The sorted list.

ghost use Rattle.std.specs.Prelude.{◌≡◌, [], ◌+◌, ◌<◌, ◌≤◌, OnOk, length, slice_get};
ghost use Rattle.wf_sorted.specs.Order.{Rising, holds, put, without};

use crate::block::Block;
use crate::blocks;
use crate::entry::Entry;
use crate::no_memory::NoMemory;
use crate::pool::Pool;
use crate::steps::Steps;
use std::alloc::Global;
use std::marker::Model;
use std::sync::ledger::Ledger;

/// Entries in their order, and room for more.
///
/// They stand in blocks of at most 128, so that putting one in or taking one out moves the entries of its block
/// alone.
#[derive(Drop)]
pub struct Sorted {
    blocks: Vec<Block>,
    pool: Pool,
    count: usize,
}

impl Model for Sorted {
    ghost use Rattle.std.specs.Prelude.{◌≡◌, ◌-◌, ◌^◌, ◌<◌, length, min};
    ghost use Rattle.std.specs.Vec.{vec_capacity, vec_len};
    ghost use Rattle.wf_sorted.specs.Blocks.{AreBlocks, entries_of};
    ghost use Rattle.wf_sorted.specs.Order.{SortedRoom};

    ghost Value = { SortedRoom };

    ghost view = { λ s. record { entries = entries_of s.blocks.items; spare = min (2 ^ 64 - 1 - s.count) (min s.pool (vec_capacity s.blocks - vec_len s.blocks)) } };

    ghost invariant = { λ s. AreBlocks s.blocks.items × (s.count ≡ length (entries_of s.blocks.items)) };
}

impl Sorted {
    /// No entries, and no room.
    pub fn new(alloc: Global) -> Sorted
        ensures { result.entries ≡ [] }
    {
        Sorted {
            blocks: Vec::new(alloc),
            pool: Pool::new(alloc),
            count: 0,
        }
    }

    /// How many entries there are; it looks at none.
    pub fn len(&self) -> usize
        ensures { result ≡ length self.now.entries }
    {
        self.count
    }

    /// The entry at that place of the order, from 0: one look.
    pub fn get<L: Ledger>(&self, place: usize, steps: &mut Steps<L>) -> Option<Entry>
        ensures value { result ≡ slice_get self.now.entries place }
        ensures order { Rising self.now.entries }
        ensures cost { steps.new ≡ steps.old + 1 }
    {
        steps.tick();
        blocks::entry_at(&self.blocks, place)
    }

    /// Makes room for that many more. Where memory is wanting the entries stay, and so does the room.
    pub fn reserve(&mut self, more: u64) -> Result<(), NoMemory>
        ensures entries { self.new.entries ≡ self.old.entries }
        ensures room { OnOk result (more ≤ self.new.spare) }
        ensures kept { self.old.spare ≤ self.new.spare }
    {
        let more = more as usize;
        if more > usize::MAX - self.count {
            return Err(NoMemory);
        }
        self.blocks.reserve(more)?;
        self.pool.fill(more)?;
        Ok(())
    }

    /// Puts the entry in its place. It takes no memory.
    pub fn add(&mut self, entry: Entry)
        requires { 0 < self.old.spare }
        ensures entries { self.new.entries ≡ put entry self.old.entries }
        ensures room { self.old.spare ≤ self.new.spare + 1 }
    {
        blocks::add(&mut self.blocks, &mut self.pool, entry);
        self.count += 1;
    }

    /// Takes the entry out once, and tells whether it was there.
    pub fn take_out(&mut self, entry: Entry) -> bool
        ensures there { result ≡ holds entry self.old.entries }
        ensures entries { self.new.entries ≡ without entry self.old.entries }
        ensures room { self.old.spare ≤ self.new.spare }
    {
        let there = blocks::take_out(&mut self.blocks, &mut self.pool, entry);
        if there {
            self.count -= 1;
        }
        there
    }
}
