//! The machine's calls and its steps: what each call makes of the state, its reply, and whole histories. Its laws stand in
//! [`laws`].
#![tactic(auto)]

mod calling;
pub mod laws;
mod operation;

pub use calling::{Call, Entry};
pub use operation::Operation;
