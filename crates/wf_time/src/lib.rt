//! When an attempt is due: delays before retries, texts that say how long something takes, and deadlines.
//!
//! Delays, timeouts and durations are seconds; moments are milliseconds. Nothing here takes memory.
#![tactic(auto)]

mod deadlines;
mod delay;
mod durations;

pub use deadlines::deadline;
pub use delay::retry_delay;
pub use durations::duration_read;
pub use wf_machine::{Cause, Clocked, RetryLogic, TaskPolicy, Timing};
