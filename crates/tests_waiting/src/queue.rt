//! The calls over queues beside the same calls over one plain list. Expected values are worked out by hand.

ghost use Rattle.std.specs.Prelude.{◌≡◌, ◌<◌};

use std::marker::Brand;
use std::sync::ledger::{Blank, Ledger};
use std::test::Fail;
use wf_queue::{PlainQueues, Queues, Steps};

fn first<L: Ledger>(blank: Blank, queues: &Queues, queue: &[u8], moment: u64) -> Option<u64>
    requires name { blank.name ≡ L.name }
    requires parts { blank.parts ≡ L.parts }
    requires some { 0 < blank.parts }
{
    let mut steps = Steps::<L>::new(blank);
    queues.first_ready(queue, moment, &mut steps)
}

#[test]
fn the_first_that_is_ready_comes_first(rt: HostRuntime) -> Result<(), Fail> {
    let alloc = rt.alloc();
    let mut queues = Queues::new(alloc)?;
    let mut plain = PlainQueues::new(alloc);
    for (queue, ready, number) in [(b"ship", 10, 7), (b"ship", 10, 3), (b"bill", 5, 9)] {
        queues.reserve(alloc, queue, 1)?;
        queues.add(queue, ready, number);
        plain.add(alloc, queue, ready, number)?;
    }
    for (moment, want) in [(9, None), (10, Some(3))] {
        assert_eq!(rt;
            first::<Brand>(Blank::new(1), &queues, b"ship", moment),
            want
        );
        assert_eq!(rt; plain.first_ready(b"ship", moment), want);
    }
    assert!(rt; queues.take_out(b"ship", 10, 3));
    assert!(rt; plain.take_out(b"ship", 10, 3));
    assert_eq!(rt; queues.size(b"ship"), 1);
    assert_eq!(rt; plain.size(b"ship"), 1);
    Ok(())
}
