//! Additions of one caller.
ghost use Rattle.std.specs.Prelude.{◌≡◌, ◌+◌, [], ◌∷◌, ◌++◌, None, length, map, IfOk, IfErr, true};
ghost use mathlib.Core.List.{IsPrefix};
ghost use Rattle.wf_lock.specs.Passes.{IsPassOf};
ghost use Rattle.wf_counter.specs.Totals.{total_of, addition, IsAdded, HasCounted};

use crate::counter::{Addition, Counter};
use crate::fault::CountFault;
use std::alloc::Global;
use std::sync::Wait;
use wf_lock::{HistoryLock, Pass, Spent};

/// The answer to one addition: the total with it, and its place in the history, from 1.
#[derive(Clone, Copy, Debug, PartialEq, Eq)]
pub struct Counted {
    pub total: u64,
    pub place: u64,
}

/// Adds the amount. Totals wrap at 2^64.
pub fn count<R: Wait>(
    rt: &R,
    lock: &HistoryLock<Counter>,
    pass: &mut Pass<Counter>,
    amount: u64,
) -> Result<Counted, Spent>
    requires lock { IsPassOf lock.now pass.old }
    requires free { pass.old.turn ≡ None }
    ensures added { IfOk result (λ r. IsAdded pass.old (addition pass.old.caller amount) r.place pass.new) }
    ensures total { IfOk result (λ r. r.total ≡ total_of lock.now.base pass.new.seen) }
    ensures spent { IfErr result (λ _. pass.new ≡ record pass.old { full = true }) }
{
    let caller = pass.caller();
    let mut turn = lock.turn(rt, pass)?;
    let total = turn.value.total.wrapping_add(amount);
    turn.value.total = total;
    let place = turn.finish(lock, pass, Addition { caller, amount });
    Ok(Counted { total, place })
}

/// Adds the amount so many times, and gives all answers.
pub fn count_times<R: Wait>(
    rt: &R,
    alloc: Global,
    lock: &HistoryLock<Counter>,
    pass: &mut Pass<Counter>,
    amount: u64,
    times: u64,
) -> Result<Vec<Counted>, CountFault>
    requires lock { IsPassOf lock.now pass.old }
    requires free { pass.old.turn ≡ None }
    ensures lock { IsPassOf lock.now pass.new × (pass.new.turn ≡ None) }
    ensures seen { IsPrefix pass.old.seen pass.new.seen }
    ensures counted { IfOk result (λ v. HasCounted lock.now times pass.old v.items pass.new) }
{
    let mut answers = Vec::new(alloc);
    for _ in 0..times {
        let counted = count(rt, lock, pass, amount)?;
        answers.push(counted)?;
    }
    Ok(answers)
}
