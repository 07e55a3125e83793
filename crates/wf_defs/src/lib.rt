//! Definitions of tasks and of workflows, read from documents.
//!
//! A document is a definition where it breaks no rule. The rules are numbered, and a document that breaks some is
//! answered the first of them with its place.
#![tactic(auto)]

mod condition;
mod faults;
mod flow_reading;
mod flow_rules;
mod lists;
mod names;
mod node_reading;
mod node_rules;
mod nodes;
mod several;
mod task_reading;
mod task_rules;

pub use faults::DefFault;
pub use flow_reading::read_flowdef;
pub use several::{read_flowdefs, read_taskdefs};
pub use task_reading::read_taskdef;
pub use wf_machine::{
    Branch, Case, Cases, Count, FlowDef, FlowDefs, Node, NodeKind, Nodes, TaskDef, TaskDefs,
};
