//! Queues by name: numbers that wait, each with the moment from which it is ready.
//!
//! Contracts see each queue's entries in their order, and its spare room. The calls without a `Result`
//! take no memory.
#![tactic(auto)]

mod no_memory;
mod plain;
mod queue;
mod queues;

pub use no_memory::NoMemory;
pub use plain::PlainQueues;
pub use queues::Queues;
pub use wf_sorted::Steps;
