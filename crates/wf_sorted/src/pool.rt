//! Empty blocks.

ghost use Rattle.std.specs.Prelude.{◌≡◌, [], ◌+◌, ◌<◌, ◌≤◌, OnOk};

use crate::block::Block;
use crate::no_memory::NoMemory;
use std::alloc::Global;
use std::marker::Model;

/// Blocks that are empty, and the allocator that gives more. Contracts see how many they are.
#[derive(Drop)]
pub struct Pool {
    alloc: Global,
    blocks: Vec<Block>,
}

impl Model for Pool {
    ghost use Rattle.std.specs.Prelude.{◌≡◌, ℕ, []};
    ghost use Rattle.std.specs.List.{All};
    ghost use Rattle.std.specs.Vec.{vec_len};

    ghost Value = { ℕ };

    ghost view = { λ p. vec_len p.blocks };

    ghost invariant = { λ p. All (λ block. block ≡ []) p.blocks.items };
}

impl Pool {
    pub fn new(alloc: Global) -> Pool
        ensures { result ≡ 0 }
    {
        Pool {
            alloc,
            blocks: Vec::new(alloc),
        }
    }

    /// Makes blocks until there are that many.
    pub fn fill(&mut self, many: usize) -> Result<(), NoMemory>
        ensures filled { OnOk result (many ≤ self.new) }
        ensures kept { self.old ≤ self.new }
    {
        while self.blocks.len() < many {
            let block = Block::new(self.alloc)?;
            self.blocks.push(block)?;
        }
        Ok(())
    }

    /// A block of the pool.
    pub fn take(&mut self) -> Block
        requires { 0 < self.old }
        ensures block { result ≡ [] }
        ensures pool { self.new + 1 ≡ self.old }
    {
        let Some(block) = self.blocks.pop() else {
            unreachable!()
        };
        block
    }

    /// Keeps the block where that takes no memory; otherwise it is let go.
    pub fn give_back(&mut self, block: Block)
        requires { block ≡ [] }
        ensures { self.old ≤ self.new }
    {
        if self.blocks.len() < self.blocks.capacity() {
            let _ = self.blocks.push(block);
        }
    }
}
