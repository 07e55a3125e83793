//! Turns.
ghost use Rattle.std.specs.Prelude.{◌≡◌, ◌+◌, ◌^◌, ◌<◌, ◌≤◌, [], ◌∷◌, ◌++◌, true, false, length, if◌then◌else◌, IfOk, IfErr, Some, None};
ghost use mathlib.Core.List.{IsPrefix};
ghost use Rattle.wf_lock.specs.Places.{ArePlaces};
ghost use Rattle.wf_lock.specs.Passes.{IsPassOf};
ghost use Rattle.wf_lock.specs.Marks.{last_marked, HasMarked};

use crate::lock::HistoryLock;
use crate::pass::Pass;
use crate::spent::Spent;
use crate::stands::Stands;
use std::sync::Wait;

/// The value, on loan for one turn, which `finish` ends.
///
/// Who drops a turn leaves its pass in it and the lock blocked for good, so no contract that gives the pass back
/// without a turn holds of such a body.
#[derive(Drop)]
pub struct Turn<T> {
    /// The place of the last entry of the history, or 0 where it is empty.
    pub place: u64,
    /// The value, which stands for these entries.
    pub value: T,
}

impl<T: Stands> Pass<T> {
    /// The number that this pass's entries have as their caller.
    pub fn caller(&self) -> u64
        ensures { result ≡ self.now.caller }
    {
        self.number
    }
}

impl<T: Stands> HistoryLock<T> {
    /// Waits for the turn of this pass, and lends the value.
    ///
    /// Answers `Spent` where it found 2^62 tickets drawn, and the pass keeps that.
    pub fn turn<R: Wait>(&self, rt: &R, pass: &mut Pass<T>) -> Result<Turn<T>, Spent>
        requires lock { IsPassOf self.now pass.old }
        requires free { pass.old.turn ≡ None }
        ensures turn { IfOk result (λ t. pass.new ≡ record pass.old { turn = Some t.place; seen = pass.new.seen }) }
        ensures history { IfOk result (λ t. IsPrefix pass.old.seen pass.new.seen × (length pass.new.seen ≡ t.place) × (t.place < 2 ^ 62)) }
        ensures value { IfOk result (λ t. (T.base t.value ≡ self.now.base) × T.stands t.value pass.new.seen) }
        ensures room { IfOk result (λ t. pass.old.full ≡ false) }
        ensures marked { IfOk result (λ t. pass.old.drains ≡ true → HasMarked T.marked pass.new.seen pass.old.own × (last_marked T.marked pass.new.seen ≡ last_marked T.marked pass.old.seen)) }
        ensures stored { pass.old.drains ≡ true → pass.old.raised ≤ last_marked T.marked pass.old.seen }
        ensures spent { IfErr result (λ _. pass.new ≡ record pass.old { full = true }) }
    {
        let place = self.table.draw_next(rt, &mut pass.seat)?;
        self.table.wait(rt, &mut pass.seat, place);
        let value = self.table.take_value(&mut pass.seat, place);
        Ok(Turn { place, value })
    }
}

impl<T: Stands> Turn<T> {
    /// Ends the turn with the entry that the value was changed by, and answers the entry's place, from 1.
    pub fn finish(self, lock: &HistoryLock<T>, pass: &mut Pass<T>, entry: T::Entry) -> u64
        requires lock { IsPassOf lock.now pass.old }
        requires turn { pass.old.turn ≡ Some self.place }
        requires base { T.base self.value ≡ lock.now.base }
        requires stands { T.stands self.value (pass.old.seen ++ entry ∷ []) }
        requires caller { T.caller entry ≡ pass.old.caller }
        requires right { T.marked entry ≡ true → pass.old.drains ≡ true }
        ensures place { result ≡ length pass.new.seen }
        ensures finish { pass.new ≡ record pass.old { turn = None; seen = pass.old.seen ++ entry ∷ []; own = pass.old.own ++ result ∷ [] } }
        ensures own { ArePlaces result pass.new.own }
        ensures marked { last_marked T.marked pass.new.seen ≡ (if T.marked entry then result else last_marked T.marked pass.old.seen) }
    {
        let Turn { place, value } = self;
        lock.table.put_value(&mut pass.seat, place, value, entry);
        place + 1
    }
}
