//! Entries of a moment and a number, sorted, with room for more. Each look at an entry counts one step.
//!
//! Contracts see the entries in their order, and the spare room as a number. Adding takes no memory.
#![tactic(auto)]

mod block;
mod blocks;
mod entry;
pub mod laws;
mod no_memory;
mod pool;
mod sorted;
mod steps;

pub use entry::Entry;
pub use no_memory::NoMemory;
pub use sorted::Sorted;
pub use steps::Steps;
