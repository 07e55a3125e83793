//! Making a lock, and passes that part, join and meet.
ghost use Rattle.std.specs.Prelude.{◌≡◌, ◌+◌, ◌^◌, ◌≤◌, ◌||◌, ◌&&◌, [], true, false, IfOk, Some, None, max, length, if◌then◌else◌};
ghost use mathlib.Core.List.{IsPrefix};
ghost use Rattle.wf_lock.specs.Places.{ArePlaces, AreApart, merged};
ghost use Rattle.wf_lock.specs.Passes.{IsPassOf};
ghost use Rattle.wf_lock.specs.Rule.{longer};

use crate::lock::HistoryLock;
use crate::no_memory::NoMemory;
use crate::pass::Pass;
use crate::stands::Stands;
use crate::table::TicketTable;
use std::alloc::Global;
use std::sync::atomic::{AtomicU64, Ordering};

impl<T: Stands> HistoryLock<T> {
    /// A lock over a value that stands for the empty history, and its first pass, which has the drain right.
    pub fn new(alloc: Global, value: T) -> Result<(HistoryLock<T>, Pass<T>), NoMemory>
    where
        T: Drop,
        requires stands { T.stands value [] }
        ensures lock { IfOk result (λ q. q.0.base ≡ T.base value) }
        ensures first { IfOk result (λ q. q.1 ≡ record { table = q.0.table; base = Some q.0.base; caller = 0; turn = None; full = false; seen = []; own = []; read = 0; raised = 0; drains = true }) }
    {
        HistoryLock::with_ticket(alloc, value, 0)
    }

    /// As `new`, with the first tickets used up.
    pub fn with_ticket(
        alloc: Global,
        value: T,
        ticket: u64,
    ) -> Result<(HistoryLock<T>, Pass<T>), NoMemory>
    where
        T: Drop,
        requires stands { T.stands value [] }
        requires ticket { ticket ≤ 2 ^ 62 }
        ensures lock { IfOk result (λ q. q.0.base ≡ T.base value) }
        ensures first { IfOk result (λ q. q.1 ≡ record { table = q.0.table; base = Some q.0.base; caller = 0; turn = None; full = false; seen = []; own = []; read = 0; raised = 0; drains = true }) }
    {
        let (table, seat) = TicketTable::open(alloc, value, ticket)?;
        let lock = HistoryLock {
            table,
            numbers: AtomicU64::new(1),
        };
        Ok((lock, Pass { seat, number: 0 }))
    }

    /// A new pass, which has seen and read as much, and has no entries and no drain right. It needs no memory.
    ///
    /// Its caller's number is the next one of the lock. Nothing rests on that numbers differ.
    pub fn split(&self, pass: &mut Pass<T>) -> Pass<T>
        requires lock { IsPassOf self.now pass.old }
        ensures same { pass.new ≡ pass.old }
        ensures split { result ≡ record pass.old { caller = result.caller; turn = None; full = false; own = []; raised = 0; drains = false } }
    {
        let number = self.numbers.fetch_add(1, Ordering::SeqCst);
        Pass {
            seat: self.table.split(&mut pass.seat),
            number,
        }
    }

    /// Takes the other pass in: the longer list of what both have seen, and the entries, the drain right and the knowledge of both.
    pub fn join(&self, pass: &mut Pass<T>, other: Pass<T>)
        requires lock { IsPassOf self.now pass.old × IsPassOf self.now other }
        requires free { (pass.old.turn ≡ None) × (other.turn ≡ None) }
        ensures join { pass.new ≡ record pass.old { full = other.full || pass.old.full; seen = longer pass.old.seen other.seen; own = merged pass.old.own other.own; read = max pass.old.read other.read; raised = (if other.drains then other.raised else pass.old.raised); drains = other.drains || pass.old.drains } }
        ensures begins { IsPrefix pass.old.seen pass.new.seen × IsPrefix other.seen pass.new.seen }
        ensures own { ArePlaces (length pass.new.seen) pass.new.own × AreApart pass.old.own other.own }
        ensures count { length pass.new.own ≡ length pass.old.own + length other.own }
        ensures right { (other.drains && pass.old.drains) ≡ false }
        ensures stored { pass.new.drains ≡ true → pass.new.read ≤ pass.new.raised }
    {
        let Pass { seat, number: _ } = other;
        self.table.join(&mut pass.seat, seat);
    }

    /// Both passes learn what the other has seen and read. Their entries and the drain right stay theirs.
    pub fn meet(&self, first: &mut Pass<T>, second: &mut Pass<T>)
        requires lock { IsPassOf self.now first.old × IsPassOf self.now second.old }
        requires free { (first.old.turn ≡ None) × (second.old.turn ≡ None) }
        ensures first { first.new ≡ record first.old { seen = longer first.old.seen second.old.seen; read = max first.old.read second.old.read } }
        ensures second { second.new ≡ record second.old { seen = longer second.old.seen first.old.seen; read = max second.old.read first.old.read } }
        ensures begins { IsPrefix first.old.seen first.new.seen × IsPrefix second.old.seen first.new.seen × IsPrefix first.old.seen second.new.seen × IsPrefix second.old.seen second.new.seen }
        ensures stored { (first.old.drains ≡ true → second.old.read ≤ first.old.raised) × (second.old.drains ≡ true → first.old.read ≤ second.old.raised) }
    {
        let of_first = self.split(first);
        let of_second = self.split(second);
        self.join(first, of_second);
        self.join(second, of_first);
    }
}
