//! The steps on the words of the table.
ghost use Rattle.std.specs.Prelude.{◌≡◌, ◌≢◌, ℕ, ◌+◌, ◌^◌, ◌<◌, ◌≤◌, List, [], ◌∷◌, ◌++◌, true, false, max, length, IfOk, IfErr, Some, None};
ghost use mathlib.Core.List.{IsPrefix};
ghost use Rattle.wf_lock.specs.declared.view.Stage.TheVariants.{Idle, Waits, Serves};
ghost use Rattle.wf_lock.specs.Marks.{last_marked};
ghost use Rattle.wf_lock.specs.Places.{RisesFrom};
ghost use Rattle.wf_lock.specs.Rule.{HasTurn, with_entry, longer};
ghost use Rattle.wf_lock.specs.Seats.{view, IsSame, IsFree, IsIdle};

use crate::rule::{DrawTicket, Finish, Learn, LookAtServing, Raise, SeeDurable, SeeTicket};
use crate::stands::Stands;
use crate::table::{PassSeat, TicketTable};
use crate::view::Held;
use std::snapshot::Snapshot;

const TICKET: usize = 0;

const SERVING: usize = 1;

const DURABLE: usize = 2;

impl<T: Stands> TicketTable<T> {
    pub(crate) fn see_ticket(&self, seat: &mut PassSeat<T>) -> u64
        requires own { (seat.old.table_id ≡ self.now.table.shared.table_id) × IsFree seat.old }
        ensures own { IsSame seat.old seat.new × IsFree seat.new }
        ensures room { result < 2 ^ 62 → (view seat.new ≡ view seat.old) × ((view seat.old).full ≡ false) }
        ensures stored { (view seat.old).drains ≡ true → (view seat.old).raised ≤ last_marked T.marked (view seat.old).seen }
        ensures full { 2 ^ 62 ≤ result → view seat.new ≡ record (view seat.old) { full = true } }
    {
        self.table.shared.load::<SeeTicket<T>>(seat, TICKET)
    }

    pub(crate) fn draw(&self, seat: &mut PassSeat<T>, ticket: u64) -> u64
        requires own { (seat.old.table_id ≡ self.now.table.shared.table_id) × IsFree seat.old }
        requires room { ticket < 2 ^ 62 }
        ensures own { IsSame seat.old seat.new × (seat.new.me.1 ≡ []) }
        ensures drew { result ≡ ticket → view seat.new ≡ record (view seat.old) { stage = Waits ticket } }
        ensures kept { result ≢ ticket → view seat.new ≡ view seat.old }
    {
        self.table
            .shared
            .compare_exchange::<DrawTicket>(seat, TICKET, ticket, ticket + 1)
    }

    pub(crate) fn look(&self, seat: &mut PassSeat<T>, ticket: u64) -> u64
        requires own { (seat.old.table_id ≡ self.now.table.shared.table_id) × (seat.old.me.1 ≡ []) }
        requires waits { (view seat.old).stage ≡ Waits ticket }
        ensures own { IsSame seat.old seat.new }
        ensures turn { result ≡ ticket → HasTurn T.base T.stands T.marked ticket seat.old.me seat.new.me }
        ensures kept { result ≢ ticket → (seat.new.me.1 ≡ []) × (view seat.new ≡ view seat.old) }
    {
        self.table.shared.load::<LookAtServing<T>>(seat, SERVING)
    }

    pub(crate) fn served(
        &self,
        seat: &mut PassSeat<T>,
        ticket: u64,
        held: &Snapshot<Held<T, T::Entry>>,
        entry: &Snapshot<T::Entry>,
    ) -> u64
        requires own { (seat.old.table_id ≡ self.now.table.shared.table_id) × (seat.old.me.1 ≡ (0, Some held.now.value) ∷ []) }
        requires turn { ((view seat.old).stage ≡ Serves ticket) × (held.now.value.last ≡ Some entry.now.value) }
        requires base { (view seat.old).base ≡ Some (T.base held.now.value.value) }
        requires stands { T.stands held.now.value.value ((view seat.old).seen ++ entry.now.value ∷ []) }
        requires right { T.marked entry.now.value ≡ true → (view seat.old).drains ≡ true }
        ensures own { IsSame seat.old seat.new }
        ensures place { result ≡ ticket }
        ensures added { (seat.new.me.1 ≡ []) × (view seat.new ≡ with_entry (view seat.old) ticket entry.now.value) }
    {
        self.table.shared.fetch_add::<Finish>(seat, SERVING, 1)
    }

    /// Takes in what the seat was told of.
    pub(crate) fn learn(&self, seat: &mut PassSeat<T>)
        requires own { (seat.old.table_id ≡ self.now.table.shared.table_id) × IsIdle seat.old }
        ensures own { IsSame seat.old seat.new × IsFree seat.new }
        ensures stored { (view seat.old).drains ≡ true → (view seat.old).read ≤ (view seat.old).raised }
        ensures rises { RisesFrom 0 (view seat.old).own }
        ensures once { (view seat.old).twice ≡ false }
        ensures seen { IsPrefix (view seat.old).seen (view seat.new).seen × IsPrefix (view seat.old).told (view seat.new).seen }
        ensures longer { view seat.new ≡ record (view seat.old) { seen = longer (view seat.old).seen (view seat.old).told; told = [] } }
    {
        self.table.shared.load::<Learn>(seat, SERVING);
    }

    /// The place up to which the history is stored.
    pub(crate) fn durable(&self, seat: &mut PassSeat<T>) -> u64
        requires own { (seat.old.table_id ≡ self.now.table.shared.table_id) × IsFree seat.old }
        ensures own { IsSame seat.old seat.new × IsFree seat.new }
        ensures read { view seat.new ≡ record (view seat.old) { read = result } }
        ensures later { (view seat.old).read ≤ result }
        ensures raised { (view seat.old).drains ≡ true → result ≡ (view seat.old).raised }
    {
        self.table.shared.load::<SeeDurable>(seat, DURABLE)
    }

    /// The history is stored up to this place at least.
    pub(crate) fn raise(&self, seat: &mut PassSeat<T>, place: u64)
        requires own { (seat.old.table_id ≡ self.now.table.shared.table_id) × IsFree seat.old }
        requires right { (view seat.old).drains ≡ true }
        requires marked { place ≤ last_marked T.marked (view seat.old).seen }
        ensures own { IsSame seat.old seat.new × IsFree seat.new }
        ensures raised { view seat.new ≡ record (view seat.old) { raised = max (view seat.old).raised place } }
    {
        self.table.shared.fetch_max::<Raise>(seat, DURABLE, place);
    }
}
