//! How a node is scheduled: what each kind of node does when a flow comes to it.
#![tactic(auto)]

mod adding;
mod counts;
mod decimals;
mod delays;
mod ending;
mod kinds;
mod loops;
mod registered;
mod starts;
mod sub_flows;
mod switches;
mod tasks;
mod texts;
mod variables;

pub use counts::count_of;
pub use kinds::schedule;
