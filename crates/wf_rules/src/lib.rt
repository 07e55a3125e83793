//! The rules of the decider: what they see of a flow, what each wants done, and what that makes of the flow; with their laws.
#![tactic(auto)]

mod acting;
pub mod laws;

pub use acting::{Act, Alert, Begin, Child, NewAttempt, Outcome};
