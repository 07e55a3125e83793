//! How much of the history is stored.
ghost use Rattle.std.specs.Prelude.{◌≡◌, ◌≤◌, true, max, None};
ghost use Rattle.wf_lock.specs.Passes.{IsPassOf};
ghost use Rattle.wf_lock.specs.Marks.{last_marked};

use crate::lock::HistoryLock;
use crate::pass::Pass;
use crate::stands::Stands;
use wf_keeper::Receipt;

impl<T: Stands> HistoryLock<T> {
    /// The place up to which the history is stored, as it is now.
    pub fn durable(&self, pass: &mut Pass<T>) -> u64
        requires lock { IsPassOf self.now pass.old }
        requires free { pass.old.turn ≡ None }
        ensures read { pass.new ≡ record pass.old { read = result } }
        ensures rises { pass.old.read ≤ result }
        ensures raised { pass.old.drains ≡ true → result ≡ pass.old.raised }
    {
        self.table.durable(&mut pass.seat)
    }

    /// The history is stored up to the receipt's place. An older receipt raises nothing.
    pub fn raise(&self, pass: &mut Pass<T>, receipt: Receipt)
        requires lock { IsPassOf self.now pass.old }
        requires free { pass.old.turn ≡ None }
        requires right { pass.old.drains ≡ true }
        requires marked { receipt.place ≤ last_marked T.marked pass.old.seen }
        ensures raised { pass.new ≡ record pass.old { raised = max pass.old.raised receipt.place } }
    {
        let place = receipt.place();
        self.table.raise(&mut pass.seat, place);
    }
}
