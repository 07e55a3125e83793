//! The public calls.

ghost use Rattle.std.specs.Prelude.{◌≡◌, ◌<◌};

use std::marker::Brand;
use std::sync::ledger::{Blank, Ledger};
use std::test::Fail;
use wf_sorted::{Entry, Sorted, Steps, laws};

const FIRST: Entry = Entry {
    moment: 10,
    number: 7,
};

const SECOND: Entry = Entry {
    moment: 20,
    number: 0,
};

const THIRD: Entry = Entry {
    moment: 20,
    number: 1,
};

fn look<L: Ledger>(blank: Blank, sorted: &Sorted, place: usize) -> Option<Entry>
    requires name { blank.name ≡ L.name }
    requires parts { blank.parts ≡ L.parts }
    requires some { 0 < blank.parts }
{
    let mut steps = Steps::<L>::new(blank);
    sorted.get(place, &mut steps)
}

#[test]
fn entries_stand_by_moment_and_then_by_number(rt: HostRuntime) -> Result<(), Fail> {
    let mut sorted = Sorted::new(rt.alloc());
    sorted.reserve(3)?;
    sorted.add(THIRD);
    sorted.add(FIRST);
    sorted.add(SECOND);
    assert_eq!(rt; sorted.len(), 3);
    for (place, want) in [(0, FIRST), (1, SECOND), (2, THIRD)] {
        assert_eq!(rt; look::<Brand>(Blank::new(1), &sorted, place), Some(want));
    }
    assert!(rt; sorted.take_out(SECOND));
    assert!(rt; !sorted.take_out(SECOND));
    assert_eq!(rt; look::<Brand>(Blank::new(1), &sorted, 1), Some(THIRD));
    assert!(rt; FIRST.is_before(SECOND));
    assert!(rt; !FIRST.is_same(SECOND));
    Ok(())
}
