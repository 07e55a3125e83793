//! What the server itself ends: a JOIN, a turn of a DO_WHILE, an attempt whose child flow has ended, and a flow whose nodes are done.
#![tactic(auto)]

mod children;
mod completing;
mod counting;
mod forks;
mod joining;
mod outputs;
mod places;
mod tables;
mod turning;

pub use children::child_ended;
pub use completing::complete;
pub use counting::count_of;
pub use joining::join;
pub use turning::turn;
