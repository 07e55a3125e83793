//! Documents: JSON values whose numbers are whole and fit 64 signed bits.
//!
//! A document is a tree of plain data. Bytes are read by the grammar of RFC 8259, numbers with a fraction or an
//! exponent and numbers out of range have a refusal of their own, and what is printed is one compact text for each
//! document. A path selects a part of a document.
#![tactic(auto)]

mod digits;
mod doc;
mod fields;
mod from_json;
pub mod laws;
mod no_memory;
mod path;
mod print_size;
mod printing;
mod reading;
mod scan;
mod text;

pub use doc::{Doc, copy, depth};
pub use fields::{Entry, Fields, SharedEntry};
pub use no_memory::NoMemory;
pub use path::{Path, Step, at};
pub use print_size::print_len;
pub use printing::print;
pub use reading::read;
pub use scan::DocFault;
pub use sqlite_items::Items;
pub use text::Text;
