//! The machine that the server is proved to be: its plain types here, its definitions in `specs/`.
//!
//! Every crate above cites these definitions, so each type has all its fields from the start. Moments are
//! milliseconds; what is counted in seconds says so.
#![tactic(auto)]

mod calling;
mod cases;
mod copying;
mod definition;
mod no_memory;
mod sight;
mod timed;
mod walking;

pub use calling::{Reply, TaskResult};
pub use definition::{
    Branch, Case, Cases, Count, FlowDef, FlowDefs, Node, NodeKind, Nodes, TaskDef, TaskDefs,
};
pub use no_memory::NoMemory;
pub use sight::{ChildState, HandList, View};
pub use timed::{Cause, Clocked, RetryLogic, TaskPolicy, Timing};
pub use walking::{Mark, Next};
