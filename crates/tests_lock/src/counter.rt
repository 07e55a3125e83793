//! The public calls: one caller's additions, and those of two threads.

use std::test::Fail;
use wf_counter::{CountedInTwo, Counter, count, count_across, count_in_two, count_times};
use wf_lock::HistoryLock;

#[test]
fn two_threads_count_to_their_end(rt: HostRuntime) -> Result<(), Fail> {
    let CountedInTwo {
        first,
        second,
        pass: _,
    } = count_in_two(&rt, rt.alloc(), 1_000, 100)?;
    assert_eq!(rt; first.len(), 100);
    assert_eq!(rt; second.len(), 100);
    let (Some(of_first), Some(of_second)) = (first.last(), second.last()) else {
        return Err(Fail::new("no answers"));
    };
    assert_eq!(rt; of_first.place.max(of_second.place), 200);
    assert_eq!(rt; of_first.total.max(of_second.total), 1_200);
    Ok(())
}

#[test]
fn each_answer_has_the_total_and_the_place(rt: HostRuntime) -> Result<(), Fail> {
    let counter = Counter {
        start: 40,
        total: 40,
    };
    let (lock, mut pass) = HistoryLock::new(rt.alloc(), counter)?;
    let counted = count(&rt, &lock, &mut pass, 2)?;
    assert_eq!(rt; (counted.total, counted.place), (42, 1));
    let answers = count_times(&rt, rt.alloc(), &lock, &mut pass, 5, 2)?;
    let [_, counted] = answers.as_slice() else {
        return Err(Fail::new("not two answers"));
    };
    assert_eq!(rt; (counted.total, counted.place), (52, 3));
    let (counted, _) = count_across(&rt, &lock, pass, 3)?;
    assert_eq!(rt; (counted.total, counted.place), (55, 4));
    Ok(())
}
