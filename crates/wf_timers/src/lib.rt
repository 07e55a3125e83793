//! An agenda: numbers with marks and with deadlines, and the least that is due.
//!
//! Contracts see the marks and the deadlines as lists by rising number, and the spare room as a number. The calls
//! without a `Result` take no memory.
#![tactic(auto)]

mod agenda;
mod deadlines;
mod marks;
mod no_memory;
mod plain;

pub use agenda::Agenda;
pub use no_memory::NoMemory;
pub use plain::PlainAgenda;
pub use wf_sorted::Steps;
