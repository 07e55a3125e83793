//! What the program does: its commands, over a source and a sink, and how they end.
#![tactic(auto)]

pub mod batch;
pub mod check;
mod input;
mod status;
mod words;

pub use status::Status;
pub use words::{GRAMMAR, Word, is_batch, is_check};
