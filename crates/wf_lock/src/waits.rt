//! Waiting for the turn, and the value on its way out and back.
ghost use Rattle.std.specs.Prelude.{◌≡◌, ◌≢◌, ℕ, ◌+◌, ◌^◌, ◌<◌, ◌≤◌, List, [], ◌∷◌, ◌++◌, true, false, length, IfOk, IfErr, Some, None};
ghost use mathlib.Core.List.{IsPrefix};
ghost use Rattle.wf_lock.specs.declared.view.Stage.TheVariants.{Idle, Waits, Serves};
ghost use Rattle.wf_lock.specs.Marks.{last_marked};
ghost use Rattle.wf_lock.specs.Rule.{HasTurn, with_entry};
ghost use Rattle.wf_lock.specs.Seats.{view, IsSame, IsFree};

use crate::spent::Spent;
use crate::stands::Stands;
use crate::table::{PassSeat, TicketTable};
use crate::view::Held;
use std::snapshot::Snapshot;
use std::sync::Wait;
use std::thread;

impl<T: Stands> TicketTable<T> {
    pub(crate) fn draw_next<R: Wait>(&self, rt: &R, seat: &mut PassSeat<T>) -> Result<u64, Spent>
        requires own { (seat.old.table_id ≡ self.now.table.shared.table_id) × IsFree seat.old }
        ensures own { IsSame seat.old seat.new × (seat.new.me.1 ≡ []) }
        ensures drew { IfOk result (λ t. (t < 2 ^ 62) × (view seat.new ≡ record (view seat.old) { stage = Waits t }) × ((view seat.old).full ≡ false)) }
        ensures stored { (view seat.old).drains ≡ true → (view seat.old).raised ≤ last_marked T.marked (view seat.old).seen }
        ensures spent { IfErr result (λ _. view seat.new ≡ record (view seat.old) { full = true }) }
    {
        for _ in rt.forever() {
            let next = self.see_ticket(seat);
            if next >= 1 << 62 {
                return Err(Spent::new());
            }
            if self.draw(seat, next) == next {
                return Ok(next);
            }
        }
        unreachable!()
    }

    pub(crate) fn wait<R: Wait>(&self, rt: &R, seat: &mut PassSeat<T>, ticket: u64)
        requires own { (seat.old.table_id ≡ self.now.table.shared.table_id) × (seat.old.me.1 ≡ []) }
        requires waits { (view seat.old).stage ≡ Waits ticket }
        ensures own { IsSame seat.old seat.new }
        ensures turn { HasTurn T.base T.stands T.marked ticket seat.old.me seat.new.me }
    {
        for _ in rt.forever() {
            if self.look(seat, ticket) == ticket {
                return;
            }
            thread::yield_now();
        }
        unreachable!()
    }

    pub(crate) fn take_value(&self, seat: &mut PassSeat<T>, ticket: u64) -> T
        requires own { seat.old.table_id ≡ self.now.table.shared.table_id }
        requires base { (view seat.old).base ≡ Some (T.base self.now.table.shared.key.value) }
        requires turn { (from : _) × (from.1 ≡ []) × HasTurn T.base T.stands T.marked ticket from seat.old.me }
        ensures own { IsSame seat.old seat.new × (view seat.new ≡ view seat.old) × (seat.new.me.1 ≡ (0, None) ∷ []) }
        ensures value { (T.base result ≡ T.base self.now.table.shared.key.value) × T.stands result (view seat.old).seen }
    {
        let Some(held) = self.table.shared.exchange(seat, 0, None) else {
            unreachable!()
        };
        let Held { value, last: _ } = held;
        value
    }

    pub(crate) fn put_value(
        &self,
        seat: &mut PassSeat<T>,
        ticket: u64,
        value: T,
        entry: T::Entry,
    ) -> u64
        requires own { (seat.old.table_id ≡ self.now.table.shared.table_id) × (seat.old.me.1 ≡ (0, None) ∷ []) }
        requires turn { (view seat.old).stage ≡ Serves ticket }
        requires base { (view seat.old).base ≡ Some (T.base value) }
        requires stands { T.stands value ((view seat.old).seen ++ entry ∷ []) }
        requires right { T.marked entry ≡ true → (view seat.old).drains ≡ true }
        ensures own { IsSame seat.old seat.new }
        ensures place { result ≡ ticket }
        ensures added { (seat.new.me.1 ≡ []) × (view seat.new ≡ with_entry (view seat.old) ticket entry) }
    {
        let noted = Snapshot::of(&entry);
        let held = Held {
            value,
            last: Some(entry),
        };
        let shown = Snapshot::of(&held);
        let empty = self.table.shared.exchange(seat, 0, Some(held));
        let None = empty else { unreachable!() };
        self.served(seat, ticket, &shown, &noted)
    }
}
