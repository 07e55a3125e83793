//! Which names may be handed out: the moments at which each was handed out last, and how many of its attempts
//! are in progress.
//!
//! A name is any list of bytes, and moments are milliseconds. Contracts see the list of all names, each with its
//! moments from the oldest and its count.
#![tactic(auto)]

mod hand;
mod hands;
mod limits;
mod no_memory;
mod plain;

pub use hands::{Hands, Moments};
pub use limits::TaskLimits;
pub use no_memory::NoMemory;
pub use plain::PlainHands;
