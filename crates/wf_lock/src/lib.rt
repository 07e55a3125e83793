//! A lock whose value stands for one history: each turn adds one entry, behind all that its pass had seen.
//!
//! A value behind the lock is of a type that is [`Stands`]: it says which lists of entries it stands for. Who holds a
//! [`Pass`] takes a [`Turn`], changes the value, and finishes the turn with the entry that the change stands for. Passes
//! are split for other threads, joined when these end, and meet to learn of each other. One pass, the first or the one
//! that it was joined into, has the drain right: it alone makes marked entries and raises the place up to which the
//! history is stored.
#![tactic(auto)]

mod lock;
mod meeting;
mod no_memory;
mod pass;
mod rule;
mod seats;
mod spent;
mod stands;
mod steps;
mod storing;
mod table;
mod turn;
mod view;
mod waits;

pub use lock::HistoryLock;
pub use no_memory::NoMemory;
pub use pass::Pass;
pub use spent::Spent;
pub use stands::Stands;
pub use turn::Turn;
