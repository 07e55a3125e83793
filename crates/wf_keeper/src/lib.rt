//! What keeps rows: keys and tables, batches of changes, and keepers that load and commit them.
//!
//! Contracts see tables as the list of their rows in the order of their keys, and a batch as the list of its changes.
//! [`Keeper`] says what a commit makes of the tables, and what a stop may leave of them.
#![tactic(auto)]

mod batch;
mod calls;
mod change;
mod keeper;
mod kept;
mod memory;
mod no_memory;
mod row;
mod row_key;
mod tables;

pub use batch::Batch;
pub use change::Change;
pub use keeper::{Keeper, StoreFault};
pub use kept::{Kept, Receipt};
pub use memory::MemoryKeeper;
pub use no_memory::NoMemory;
pub use row::Row;
pub use row_key::RowKey;
pub use tables::Tables;
