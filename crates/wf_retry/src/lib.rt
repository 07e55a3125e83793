//! What time and failure ask of a flow: passed deadlines, ended children, and attempts that are lost.
#![tactic(auto)]

mod due;
mod ended;
mod losing;
mod retrying;

pub use due::{is_over_time, past_due};
pub use ended::ended_child;
pub use retrying::lost;
pub use wf_setting::NoMemory;
