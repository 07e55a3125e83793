//! The machine as it runs: its state, and each call as one step of the history.
//!
//! A step is made in two parts. [`Core::prepare`] does all that may lack memory and changes nothing; what it answers,
//! a [`Change`], tells what is touched. [`Core::commit_change`] makes that change and takes no memory, so a step is made
//! whole or not at all.
#![tactic(auto)]

mod beside;
mod change;
mod decides;
mod deciding;
mod definitions;
pub mod laws;
mod no_memory;
mod operations;
mod polls;
mod reads;
mod registrations;
mod running;
mod starts;
mod steps;
mod updates;

pub use change::{Change, Decided, Touched};
pub use no_memory::NoMemory;
pub use steps::Core;
