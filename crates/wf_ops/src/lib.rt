//! What operators do to a flow.
//!
//! Each call makes one change of the record, or refuses and leaves it as it was. None of them decides the flow, and
//! only `skip` takes memory.
#![tactic(auto)]

mod ending;
mod kinds;
mod lasting;
pub mod laws;
mod pausing;
mod rerunning;
mod restarting;
mod retrying;
mod skipping;

pub use ending::{Kin, may_remove, terminate};
pub use pausing::{pause, resume};
pub use rerunning::rerun;
pub use restarting::restart;
pub use retrying::retry;
pub use skipping::skip;
