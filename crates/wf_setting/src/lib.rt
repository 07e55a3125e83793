//! Where and when a flow is decided, and what each rule makes there: filled documents, within the limits, and failures.
#![tactic(auto)]

mod child;
mod failing;
mod filling;
mod no_memory;
mod scope;
mod setting;
mod templates;

pub use child::EndedChild;
pub use failing::{fails, fails_too_large, one, two, unless_large};
pub use filling::{fill_in, has_keys, is_too_large};
pub use no_memory::NoMemory;
pub use scope::{FlowScope, flow_id};
pub use setting::{Children, Setting};
pub use templates::with_template;
