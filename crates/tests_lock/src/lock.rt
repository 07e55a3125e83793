//! The public calls, and a lock whose tickets are used up.

ghost use Rattle.std.specs.Prelude.{◌≡◌, length, true, None, IfOk};
ghost use Rattle.wf_lock.specs.Passes.{IsPassOf};

use std::alloc::Global;
use std::sync::Wait;
use std::test::Fail;
use wf_keeper::{Batch, Kept, MemoryKeeper, Receipt, StoreFault, Tables};
use wf_lock::{HistoryLock, Pass, Spent, Stands};

// How many entries there are.
#[derive(Drop)]
struct Count {
    entries: u64,
}

#[derive(Drop)]
struct Note {
    caller: u64,
    marked: bool,
}

impl Stands for Count {
    type Entry = Note;

    type Base = ();

    ghost base = { λ c. tt };

    ghost stands = { λ c log. c.entries ≡ length log };

    ghost marked = { λ e. e.marked };

    ghost caller = { λ e. e.caller };
}

fn counted<R: Wait>(
    rt: &R,
    lock: &HistoryLock<Count>,
    pass: &mut Pass<Count>,
    marked: bool,
) -> Result<u64, Spent>
    requires lock { IsPassOf lock.now pass.old }
    requires free { pass.old.turn ≡ None }
    requires right { marked ≡ true → pass.old.drains ≡ true }
    ensures pass { pass.new ≡ record pass.old { full = pass.new.full; seen = pass.new.seen; own = pass.new.own } }
{
    let caller = pass.caller();
    let mut turn = lock.turn(rt, pass)?;
    turn.value.entries += 1;
    Ok(turn.finish(lock, pass, Note { caller, marked }))
}

#[test]
fn entries_have_places(rt: HostRuntime) -> Result<(), Fail> {
    let (lock, mut pass) = HistoryLock::new(rt.alloc(), Count { entries: 0 })?;
    let mut second = lock.split(&mut pass);
    assert_eq!(rt; second.caller(), 1);
    assert_eq!(rt; counted(&rt, &lock, &mut pass, false), Ok(1));
    lock.meet(&mut pass, &mut second);
    lock.join(&mut second, pass);
    assert_eq!(rt; counted(&rt, &lock, &mut second, true), Ok(2));
    Ok(())
}

fn receipt(alloc: Global, place: u64) -> Result<Receipt, StoreFault>
    ensures { IfOk result (λ r. r.place ≡ place) }
{
    let keeper = MemoryKeeper::new(alloc, Tables::new(alloc), &[])?;
    Kept::new(keeper).commit(&Batch::new(alloc, place))
}

#[test]
fn what_a_receipt_shows_is_stored(rt: HostRuntime) -> Result<(), Fail> {
    let (lock, mut pass) = HistoryLock::new(rt.alloc(), Count { entries: 0 })?;
    let caller = pass.caller();
    let mut turn = lock.turn(&rt, &mut pass)?;
    turn.value.entries += 1;
    let note = Note {
        caller,
        marked: true,
    };
    let place = turn.finish(&lock, &mut pass, note);
    lock.raise(&mut pass, receipt(rt.alloc(), place)?);
    assert_eq!(rt; lock.durable(&mut pass), 1);
    Ok(())
}

#[test]
fn tickets_end(rt: HostRuntime) -> Result<(), Fail> {
    let (lock, mut pass) = HistoryLock::with_ticket(rt.alloc(), Count { entries: 0 }, 1 << 62)?;
    assert!(rt; lock.turn(&rt, &mut pass).is_err());
    Ok(())
}
