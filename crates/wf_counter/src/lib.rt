//! A counter of several threads, whose replies are those of one history.
//!
//! It shows how a layer above uses the lock: by the contracts of [`wf_lock`] alone.
#![tactic(auto)]

mod counter;
mod counting;
mod fault;
mod threads;

pub use counter::{Addition, Counter};
pub use counting::{Counted, count, count_times};
pub use fault::CountFault;
pub use threads::{CountedInTwo, count_across, count_in_two};
