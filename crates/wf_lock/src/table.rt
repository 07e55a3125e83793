//! The table of the lock: the words `ticket`, `serving` and `durable`, and one slot for the value.
ghost use Rattle.std.specs.Prelude.{◌≡◌};

use crate::rule::OneHistory;
use crate::stands::Stands;
use crate::view::{Held, View};
use atomic_table::{Seat, Table};
use std::alloc::Global;
use std::snapshot::Snapshot;

pub(crate) type PassSeat<T> = Seat<
    Option<Held<T, <T as Stands>::Entry>>,
    View<<T as Stands>::Entry, <T as Stands>::Base>,
>;

#[derive(Drop)]
pub(crate) struct TicketTable<T: Stands> {
    pub(crate) table: Table<
        Option<Held<T, T::Entry>>,
        View<T::Entry, T::Base>,
        Snapshot<T>,
        OneHistory<T>,
        Global,
    >,
    ghost sized: { (table.shared.table_id.words ≡ 3) × (table.shared.table_id.slots ≡ 1) },
}

pub(crate) fn sized_table<T: Stands>(
    table: Table<
        Option<Held<T, T::Entry>>,
        View<T::Entry, T::Base>,
        Snapshot<T>,
        OneHistory<T>,
        Global,
    >,
) -> TicketTable<T>
    requires { (table.shared.table_id.words ≡ 3) × (table.shared.table_id.slots ≡ 1) }
    ensures { result.table ≡ table }
{
    TicketTable { table }
}
