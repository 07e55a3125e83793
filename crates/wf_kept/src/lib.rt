//! What the machine's core keeps, each structure with a value of its own: lists with room for more, registered
//! definitions, kept flows with an index of their attempts, and hand-outs by name.
//!
//! What a change needs is made ready by a `reserve`; the calls that make it have no `Result`, and take no memory.
#![tactic(auto)]

mod concerned;
mod flows;
mod hand_row;
mod hands;
mod index;
mod kept;
mod no_memory;
mod registry;
mod roomy;
mod tasks;

pub use flows::KeptFlows;
pub use hands::HandBook;
pub use kept::KeptFlow;
pub use no_memory::NoMemory;
pub use registry::{find_flow_def, flow_def_of, forget, register, register_all};
pub use roomy::Roomy;
pub use tasks::{forget_task, register_task, register_tasks, task_def_of};
