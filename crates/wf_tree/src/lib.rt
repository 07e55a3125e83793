//! Where a flow stands: the marks of its nodes and its next step, worked out afresh from its attempts.
//!
//! Nothing here takes memory.
#![tactic(auto)]

pub mod laws;
mod marking;
mod next;
mod step;

pub use marking::mark;
pub use next::next_node;
pub use wf_machine::{Mark, Next};
