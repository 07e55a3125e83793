//! A flow that is decided: what acts make of it, with the flows that it starts and both next numbers.
#![tactic(auto)]

mod beginning;
mod no_memory;
mod turn;

pub use no_memory::NoMemory;
pub use turn::Turn;
