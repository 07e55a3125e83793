//! Requests as calls of the machine, and replies as bytes.
//!
//! [`read_call`] is the grammar of requests: the call that a request is, or the first reason why it is none.
//! [`moment_of`] is the moment that a request states for itself. [`print_reply`] and [`print_fault`] frame an answer as
//! HTTP/1.1.
#![tactic(auto)]

mod bodies;
mod definitions;
mod faulting;
mod ids;
mod moments;
mod numbers;
mod operations;
mod replies;
mod requests;
mod response;
mod routed;
mod starts;
mod targets;
mod updates;

pub use faulting::HttpFault;
pub use moments::moment_of;
pub use replies::{print_fault, print_reply};
pub use requests::{is_encoded, read_call};
pub use wf_routes::Routes;
