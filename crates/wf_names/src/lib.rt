//! The names that the workflow server speaks in: the statuses of tasks and of workflows, the
//! numbers and id texts that name them, and the refusals of calls.
//!
//! Nothing here takes memory, and nothing fails: a text that names nothing reads as `None`.
#![tactic(auto)]

pub mod ids;
pub mod laws;
pub mod refusals;
pub mod statuses;

pub use ids::{FlowNo, IdKind, TaskNo};
pub use refusals::Refusal;
pub use statuses::{FlowStatus, TaskStatus};
