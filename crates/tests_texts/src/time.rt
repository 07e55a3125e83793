//! Each call once, on delays, texts and moments that are worked out by hand.

use wf_machine::{Cause, Clocked, RetryLogic, TaskPolicy, Timing};
use wf_time::{deadline, duration_read, retry_delay};

const TIMING: Timing = Timing {
    retry_count: 3,
    logic: RetryLogic::Exponential,
    delay: 60,
    scale: 2,
    total: 30,
    policy: TaskPolicy::TimeOutWf,
    response: 20,
    poll: 10,
};

#[test]
fn delays_grow_and_are_cut_off(rt: HostRuntime) {
    assert_eq!(rt; retry_delay(&TIMING, 3), 480);
    assert_eq!(rt; retry_delay(&TIMING, 31), 2_147_483_647);
}

#[test]
fn texts_are_durations_or_not(rt: HostRuntime) {
    for (text, seconds) in [
        ("1 days 2h", Some(93_600)),
        ("4s 3mins 2 hrs 1d", Some(93_784)),
        ("  007  sec  ", Some(7)),
        ("2147483646s 1s", Some(2_147_483_647)),
        ("2147483647s 1s", None),
        ("", None),
        ("5", None),
        ("1.5h", None),
        ("PT5S", None),
    ] {
        assert_eq!(rt; duration_read(text), seconds, "{text}");
    }
}

#[test]
fn the_earliest_deadline_counts(rt: HostRuntime) {
    let clocked = Clocked {
        held: true,
        ready: 1000,
        first_poll: Some(2000),
        last_poll: 5000,
        poll_noted: false,
        total_noted: false,
        wait: Some(25_000),
    };
    assert_eq!(rt;
        deadline(Some(&TIMING), &clocked),
        Some((25_000, Cause::Response))
    );
    assert_eq!(rt; deadline(None, &clocked), Some((25_000, Cause::Wait)));
}
