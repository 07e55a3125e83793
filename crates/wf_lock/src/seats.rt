//! The seats of the table: the first, a new one, one taken in.
ghost use Rattle.std.specs.Prelude.{◌≡◌, ◌^◌, ◌≤◌, ◌<◌, ◌||◌, ◌&&◌, [], ◌∷◌, true, false, IfOk, Some, max, if◌then◌else◌};
ghost use mathlib.Core.List.{IsPrefix};
ghost use Rattle.wf_lock.specs.Places.{RisesFrom, merged};
ghost use Rattle.wf_lock.specs.Rule.{longer, first_view, split_off, joined};
ghost use Rattle.wf_lock.specs.Seats.{view, IsSame, IsFree, IsIdle, IsOf};

use crate::rule::{JoinPass, SplitPass};
use crate::stands::Stands;
use crate::table::{PassSeat, TicketTable, sized_table};
use crate::view::Held;
use atomic_table::Table;
use std::alloc::{AllocError, Global};
use std::snapshot::Snapshot;

impl<T: Stands> TicketTable<T> {
    /// A table whose next ticket is `ticket`, over the empty history.
    pub(crate) fn open(
        alloc: Global,
        value: T,
        ticket: u64,
    ) -> Result<(TicketTable<T>, PassSeat<T>), AllocError>
    where
        T: Drop,
        requires stands { T.stands value [] }
        requires ticket { ticket ≤ 2 ^ 62 }
        ensures { IfOk result (λ q. IsOf q.0.table.shared.table_id (T.base value) q.1 × IsFree q.1 × (view q.1 ≡ first_view (T.base value)) × (T.base q.0.table.shared.key.value ≡ T.base value)) }
    {
        let first = Snapshot::of(&value);
        let mut slots = Vec::new(alloc);
        slots.push(Some(Held { value, last: None }))?;
        match Table::new(alloc, &[ticket, 0, 0], slots, &first) {
            Ok((table, seat)) => Ok((sized_table(table), seat)),
            Err(_) => Err(AllocError),
        }
    }

    /// A new seat, which has seen as much.
    pub(crate) fn split(&self, seat: &mut PassSeat<T>) -> PassSeat<T>
        requires own { seat.old.table_id ≡ self.now.table.shared.table_id }
        ensures old { IsSame seat.old seat.new × (seat.new.me ≡ seat.old.me) }
        ensures new { (result.table_id ≡ seat.old.table_id) × IsFree result × (view result ≡ split_off (view seat.old)) }
    {
        self.table.shared.split_seat::<SplitPass>(seat)
    }

    fn take_in(&self, seat: &mut PassSeat<T>, other: PassSeat<T>)
        requires own { (seat.old.table_id ≡ self.now.table.shared.table_id) × (other.table_id ≡ self.now.table.shared.table_id) }
        requires free { IsFree seat.old × IsFree other }
        ensures own { IsSame seat.old seat.new × IsIdle seat.new }
        ensures taken { view seat.new ≡ joined (view seat.old) (view other) }
    {
        self.table.shared.join_seat::<JoinPass>(seat, other);
    }

    /// Takes a seat in: what both have seen, and the places of both.
    pub(crate) fn join(&self, seat: &mut PassSeat<T>, other: PassSeat<T>)
        requires own { (seat.old.table_id ≡ self.now.table.shared.table_id) × (other.table_id ≡ self.now.table.shared.table_id) }
        requires free { IsFree seat.old × IsFree other }
        ensures own { IsSame seat.old seat.new × IsFree seat.new }
        ensures view { view seat.new ≡ record (joined (view seat.old) (view other)) { seen = longer (view seat.old).seen (view other).seen; told = [] } }
        ensures begins { IsPrefix (view seat.old).seen (view seat.new).seen × IsPrefix (view other).seen (view seat.new).seen }
        ensures rises { RisesFrom 0 (view seat.new).own }
        ensures stored { (view seat.new).drains ≡ true → (view seat.new).read ≤ (view seat.new).raised }
        ensures once { ((view other).drains && (view seat.old).drains) ≡ false }
    {
        self.take_in(seat, other);
        self.learn(seat);
    }
}
