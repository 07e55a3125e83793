//! Documents filled with what their expressions name.
//!
//! In a text, `${` and the next `}` enclose an expression, which is a path. A scope says what each path names. A text
//! that is one expression and nothing else becomes the value itself, or null where nothing is named; in any other text
//! each expression is replaced by the value's text, which is empty for nothing. What was put in isn't looked at again.
//! Lists are filled item by item, tables value by value, and keys stay.
#![tactic(auto)]

mod cutting;
mod fault;
mod filling;
pub mod laws;
mod room;
mod scope;
mod value_text;

pub use fault::FillFault;
pub use filling::fill;
pub use scope::Scope;
pub use value_text::text_of;
