//! The calls over sorted names and rings beside the same calls over plain lists. Expected values are worked out
//! by hand.

use std::test::Fail;
use wf_limits::{Hands, PlainHands, TaskLimits};

fn limits(concurrent: u32, rate: u32) -> TaskLimits {
    TaskLimits {
        concurrent,
        rate,
        per: 1,
    }
}

#[test]
fn a_name_is_admitted_by_its_count_and_its_hand_outs(rt: HostRuntime) -> Result<(), Fail> {
    let alloc = rt.alloc();
    let mut hands = Hands::new(alloc)?;
    let mut plain = PlainHands::new(alloc);
    hands.reserve(alloc, b"pick")?;
    plain.reserve(alloc, b"pick")?;
    hands.note(b"pick", 5);
    plain.note(b"pick", 5)?;
    hands.enter(b"pick");
    plain.enter(b"pick");
    for (limits, moment, want) in [
        (limits(1, 0), 1005, false),
        (limits(2, 1), 1004, false),
        (limits(2, 1), 1005, true),
    ] {
        assert_eq!(rt; hands.admits(b"pick", &limits, moment), want);
        assert_eq!(rt; plain.admits(b"pick", &limits, moment), want);
    }
    hands.leave(b"pick");
    plain.leave(b"pick");
    assert!(rt; hands.admits(b"pick", &limits(1, 0), 1005));
    assert!(rt; plain.admits(b"pick", &limits(1, 0), 1005));
    assert_eq!(rt; hands.moments(alloc, b"pick")?.as_slice(), [5].as_slice());
    Ok(())
}
