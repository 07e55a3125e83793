//! Two threads that count.
ghost use Rattle.std.specs.Prelude.{◌≡◌, ◌+◌, [], ◌∷◌, ◌++◌, None, Some, length, map, IfOk};
ghost use Rattle.std.specs.Thread.{IsSync};
ghost use Rattle.wf_lock.specs.Places.{ArePlaces, merged};
ghost use Rattle.wf_lock.specs.Passes.{IsPassOf};
ghost use Rattle.wf_counter.specs.Totals.{total_of, addition, IsAdded, AreAnswers, HasCounted};

use crate::counter::{Addition, Counter};
use crate::counting::{Counted, count_times};
use crate::fault::CountFault;
use std::alloc::Global;
use std::sync::Wait;
use std::thread::{Threads, join};
use wf_lock::{HistoryLock, Pass, Spent};

/// The answers of two threads, and the pass that has seen all that they had.
#[derive(Drop)]
pub struct CountedInTwo {
    pub first: Vec<Counted>,
    pub second: Vec<Counted>,
    pub pass: Pass<Counter>,
}

// The thread's part: it owns its pass, and gives it back with the answers.
fn run<R: Wait>(
    rt: &R,
    alloc: Global,
    lock: &HistoryLock<Counter>,
    pass: Pass<Counter>,
    times: u64,
) -> Result<(Vec<Counted>, Pass<Counter>), CountFault>
    requires lock { IsPassOf lock.now pass }
    requires free { pass.turn ≡ None }
    ensures counted { IfOk result (λ r. HasCounted lock.now times pass r.0.items r.1) }
{
    let mut pass = pass;
    let answers = count_times(rt, alloc, lock, &mut pass, 1, times)?;
    Ok((answers, pass))
}

/// Counts from `start` in two threads, each `times` times by one.
pub fn count_in_two<R: Threads + Wait + Sync>(
    rt: &R,
    alloc: Global,
    start: u64,
    times: u64,
) -> Result<CountedInTwo, CountFault>
    ensures answers { IfOk result (λ r. AreAnswers start r.pass.seen r.first.items × AreAnswers start r.pass.seen r.second.items) }
    ensures times { IfOk result (λ r. (length r.first.items ≡ times) × (length r.second.items ≡ times)) }
    ensures own { IfOk result (λ r. length r.pass.own ≡ times + times) }
    ensures places { IfOk result (λ r. ArePlaces (length r.pass.seen) (merged (map (λ a. a.place) r.first.items) (map (λ a. a.place) r.second.items))) }
{
    let counter = Counter {
        start,
        total: start,
    };
    let (lock, mut first_pass) = HistoryLock::new(alloc, counter)?;
    let second_pass = lock.split(&mut first_pass);
    let shared = &lock;
    let (first, second) = join(
        rt,
        move || -> Result<(Vec<Counted>, Pass<Counter>), CountFault>
            requires { IsSync R.row × IsPassOf shared.now first_pass × (first_pass.turn ≡ None) }
            ensures { IfOk result (λ r. HasCounted shared.entry.now times first_pass r.0.items r.1) }
        { run(rt, alloc, shared, first_pass, times) },
        move || -> Result<(Vec<Counted>, Pass<Counter>), CountFault>
            requires { IsSync R.row × IsPassOf shared.now second_pass × (second_pass.turn ≡ None) }
            ensures { IfOk result (λ r. HasCounted shared.entry.now times second_pass r.0.items r.1) }
        { run(rt, alloc, shared, second_pass, times) },
    );
    let (first, mut pass) = first?;
    let (second, other) = second?;
    lock.join(&mut pass, other);
    Ok(CountedInTwo {
        first,
        second,
        pass,
    })
}

/// Adds the amount in a turn that begins in this thread and ends in another, to which the pass and the turn are handed.
pub fn count_across<R: Threads + Wait + Sync>(
    rt: &R,
    lock: &HistoryLock<Counter>,
    pass: Pass<Counter>,
    amount: u64,
) -> Result<(Counted, Pass<Counter>), Spent>
    requires lock { IsPassOf lock.now pass }
    requires free { pass.turn ≡ None }
    ensures added { IfOk result (λ r. IsAdded pass (addition pass.caller amount) r.0.place r.1) }
    ensures total { IfOk result (λ r. r.0.total ≡ total_of lock.now.base r.1.seen) }
{
    let mut pass = pass;
    let caller = pass.caller();
    let mut turn = lock.turn(rt, &mut pass)?;
    let total = turn.value.total.wrapping_add(amount);
    turn.value.total = total;
    let (ended, _) = join(
        rt,
        move || -> (u64, Pass<Counter>)
            requires lock { IsPassOf lock.now pass }
            requires turn { (pass.turn ≡ Some turn.place) × (pass.caller ≡ caller) × (length pass.seen ≡ turn.place) }
            requires value { (turn.value.start ≡ lock.now.base) × (turn.value.total ≡ total_of lock.now.base (pass.seen ++ addition caller amount ∷ [])) }
            ensures pass { result.1 ≡ record pass { turn = None; seen = pass.seen ++ addition caller amount ∷ []; own = pass.own ++ result.0 ∷ [] } }
            ensures place { result.0 ≡ length result.1.seen }
        {
            let mut pass = pass;
            let place = turn.finish(lock, &mut pass, Addition { caller, amount });
            (place, pass)
        },
        || (),
    );
    let (place, pass) = ended;
    Ok((Counted { total, place }, pass))
}
