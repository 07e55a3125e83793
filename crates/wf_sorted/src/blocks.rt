//! Blocks in their order: where an entry belongs, and how it is put in and taken out.

ghost use Rattle.std.specs.Prelude.{◌≡◌, [], ◌∷◌, ◌+◌, ◌<◌, ◌≤◌, ◌==◌, if◌then◌else◌, length, slice_get, slice_index_or, true, false};
ghost use Rattle.std.specs.List.{insert, remove};
ghost use Rattle.std.specs.List.Sorted.{IsPartitionPoint};
ghost use Rattle.std.specs.Vec.{vec_capacity, vec_len};
ghost use Rattle.wf_sorted.specs.Blocks.{AreBlocks, IsBlockFor, all_before, entries_of};
ghost use Rattle.wf_sorted.specs.Order.{holds, put, without};

use crate::block::Block;
use crate::entry::Entry;
use crate::pool::Pool;

/// The place before which all blocks end before the entry; it is searched by halves.
fn place_in(blocks: &[Block], entry: Entry) -> usize
    requires { AreBlocks blocks.now }
    ensures bound { result ≤ length blocks.now }
    ensures parted { IsPartitionPoint (λ block. all_before entry block ≡ true) (λ block. all_before entry block ≡ false) blocks.now result }
{
    blocks.partition_point(|block| block.ends_before(entry))
}

/// The place of the block where the entry belongs.
fn place_for(blocks: &[Block], entry: Entry) -> usize
    requires { AreBlocks blocks.now }
    ensures bound { 0 < length blocks.now → result < length blocks.now }
    ensures place { IsBlockFor entry blocks.now result }
{
    let place = place_in(blocks, entry);
    if place == blocks.len() && place > 0 {
        place - 1
    } else {
        place
    }
}

/// The entry at that place of the order.
pub fn entry_at(blocks: &[Block], place: usize) -> Option<Entry>
    ensures { result ≡ slice_get (entries_of blocks.now) place }
{
    let mut left = place;
    for block in blocks {
        if left < block.len() {
            return block.get(left);
        }
        left -= block.len();
    }
    None
}

/// Puts the entry in its place. The pool gives a block where there is none or where the entry's is full.
pub fn add(blocks: &mut Vec<Block>, pool: &mut Pool, entry: Entry)
    requires blocks { AreBlocks blocks.old.items }
    requires room { vec_len blocks.old < vec_capacity blocks.old }
    requires pool { 0 < pool.old }
    ensures blocks { AreBlocks blocks.new.items }
    ensures entries { entries_of blocks.new.items ≡ put entry (entries_of blocks.old.items) }
    ensures len { vec_len blocks.new ≤ vec_len blocks.old + 1 }
    ensures capacity { vec_capacity blocks.old ≤ vec_capacity blocks.new }
    ensures pool { pool.old ≤ pool.new + 1 }
{
    let place = place_for(blocks, entry);
    if blocks.is_empty() {
        add_first(blocks, pool, entry);
    } else if blocks[place].is_full() {
        add_to_full(blocks, place, pool, entry);
    } else {
        blocks[place].add(entry);
    }
}

/// Makes a first block for the entry.
fn add_first(blocks: &mut Vec<Block>, pool: &mut Pool, entry: Entry)
    requires empty { blocks.old.items ≡ [] }
    requires room { vec_len blocks.old < vec_capacity blocks.old }
    requires pool { 0 < pool.old }
    ensures blocks { blocks.new.items ≡ put entry [] ∷ [] }
    ensures len { vec_len blocks.new ≡ vec_len blocks.old + 1 }
    ensures capacity { vec_capacity blocks.old ≤ vec_capacity blocks.new }
    ensures pool { pool.old ≡ pool.new + 1 }
{
    let mut block = pool.take();
    block.add(entry);
    insert_at(blocks, 0, block);
}

/// Puts the entry in its place in a full block, whose upper half becomes the next block.
fn add_to_full(blocks: &mut Vec<Block>, place: usize, pool: &mut Pool, entry: Entry)
    requires place { place < vec_len blocks.old }
    requires full { length (slice_index_or blocks.old.items place []) ≡ 128 }
    requires blocks { AreBlocks blocks.old.items }
    requires here { IsBlockFor entry blocks.old.items place }
    requires room { vec_len blocks.old < vec_capacity blocks.old }
    requires pool { 0 < pool.old }
    ensures blocks { AreBlocks blocks.new.items }
    ensures entries { entries_of blocks.new.items ≡ put entry (entries_of blocks.old.items) }
    ensures len { vec_len blocks.new ≡ vec_len blocks.old + 1 }
    ensures capacity { vec_capacity blocks.old ≤ vec_capacity blocks.new }
    ensures pool { pool.old ≡ pool.new + 1 }
{
    let mut upper = pool.take();
    blocks[place].add_and_split(entry, &mut upper);
    insert_at(blocks, place + 1, upper);
}

/// Takes the entry out once, and tells whether it was there.
pub fn take_out(blocks: &mut Vec<Block>, pool: &mut Pool, entry: Entry) -> bool
    requires { AreBlocks blocks.old.items }
    ensures there { result ≡ holds entry (entries_of blocks.old.items) }
    ensures blocks { AreBlocks blocks.new.items }
    ensures entries { entries_of blocks.new.items ≡ without entry (entries_of blocks.old.items) }
    ensures len { vec_len blocks.new ≤ vec_len blocks.old }
    ensures capacity { vec_capacity blocks.new ≡ vec_capacity blocks.old }
    ensures pool { pool.old ≤ pool.new }
{
    let place = place_in(blocks, entry);
    if place == blocks.len() {
        return false;
    }
    let there = blocks[place].take_out(entry);
    give_back_empty(blocks, place, pool);
    there
}

/// Gives the block back to the pool where it is empty.
fn give_back_empty(blocks: &mut Vec<Block>, place: usize, pool: &mut Pool)
    requires { place < vec_len blocks.old }
    ensures blocks { blocks.new.items ≡ (if length (slice_index_or blocks.old.items place []) == 0 then remove blocks.old.items place else blocks.old.items) }
    ensures len { vec_len blocks.new ≤ vec_len blocks.old }
    ensures capacity { vec_capacity blocks.new ≡ vec_capacity blocks.old }
    ensures pool { pool.old ≤ pool.new }
{
    if blocks[place].len() == 0 {
        pool.give_back(blocks.remove(place));
    }
}

/// Inserts the block into spare room.
fn insert_at(blocks: &mut Vec<Block>, place: usize, block: Block)
    requires place { place ≤ vec_len blocks.old }
    requires room { vec_len blocks.old < vec_capacity blocks.old }
    ensures items { blocks.new.items ≡ insert blocks.old.items place block }
    ensures len { vec_len blocks.new ≡ vec_len blocks.old + 1 }
    ensures capacity { vec_capacity blocks.old ≤ vec_capacity blocks.new }
{
    let _ = blocks.insert(place, block);
}
