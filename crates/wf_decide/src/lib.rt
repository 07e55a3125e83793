//! The decider: which rule applies to a flow, the flow when none applies any more, and plans of what a decision does.
#![tactic(auto)]

mod allowing;
mod choosing;
mod copies;
mod deciding;
pub mod laws;
mod planning;
mod plans;
mod room;
mod viewing;

pub use choosing::choose;
pub use deciding::decide;
pub use planning::plan;
pub use plans::{Plan, apply};
pub use room::Room;
pub use wf_setting::{Children, NoMemory, Setting};
