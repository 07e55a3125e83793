//! The lock.
use crate::stands::Stands;
use crate::table::TicketTable;
use std::marker::Model;
use std::sync::atomic::AtomicU64;

/// A value behind a lock, which stands for one history.
#[derive(Drop)]
pub struct HistoryLock<T: Stands> {
    pub(crate) table: TicketTable<T>,
    pub(crate) numbers: AtomicU64,
}

impl<T: Stands> Model for HistoryLock<T> {
    ghost use Rattle.wf_lock.specs.Passes.{LockState};

    ghost Value = { LockState T.Base };

    ghost view = { λ l. record { table = l.table.table.shared.table_id; base = T.base l.table.table.shared.key.value } };
}
