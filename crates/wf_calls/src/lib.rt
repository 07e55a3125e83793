//! The documents that replies carry.
#![tactic(auto)]

mod entries;
mod flows;
mod no_memory;
mod tasks;

pub use flows::flow_document;
pub use no_memory::NoMemory;
pub use tasks::task_document;
