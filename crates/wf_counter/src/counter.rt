//! What lies behind the lock.

use wf_lock::Stands;

/// A total, and what it began from.
#[derive(Drop)]
pub struct Counter {
    pub start: u64,
    pub total: u64,
}

/// One entry of the history: the caller added an amount.
#[derive(Clone, Copy, Drop)]
pub struct Addition {
    pub caller: u64,
    pub amount: u64,
}

impl Stands for Counter {
    ghost use Rattle.wf_counter.specs.Totals.{total_of};
    ghost use Rattle.std.specs.Prelude.{◌≡◌, false};

    type Entry = Addition;

    type Base = u64;

    ghost base = { λ c. c.start };

    ghost stands = { λ c log. c.total ≡ total_of c.start log };

    ghost marked = { λ e. false };

    ghost caller = { λ e. e.caller };
}
