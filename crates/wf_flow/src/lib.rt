//! The record of one workflow instance, a flow, and of the attempts at its nodes.
//!
//! Contracts see a flow and an attempt as the records of the machine's definitions. A flow keeps room for
//! attempts, so that a change that was prepared takes no memory.
#![tactic(auto)]

mod attempt;
mod attempts;
mod empty;
mod finding;
mod flow;
mod lasting;
mod naming;
mod no_memory;
mod nodes;
mod turns;

pub use attempt::Attempt;
pub use finding::{NodeTest, find_in};
pub use flow::{Flow, TaskNos};
pub use naming::node_named;
pub use no_memory::NoMemory;
pub use nodes::{has_inside, is_looped, is_simple_at, node_at, takes_update_at};
pub use wf_machine::TaskResult;

/// Flows in an order that the holder gives them.
pub type Flows = wf_doc::Items<Flow>;
