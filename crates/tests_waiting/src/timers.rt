//! The calls over an agenda beside the same calls over plain lists. Expected values are worked out by hand.

ghost use Rattle.std.specs.Prelude.{◌≡◌, ◌<◌};

use std::marker::Brand;
use std::sync::ledger::{Blank, Ledger};
use std::test::Fail;
use wf_timers::{Agenda, PlainAgenda, Steps};

fn least<L: Ledger>(blank: Blank, agenda: &Agenda, moment: u64) -> Option<u64>
    requires name { blank.name ≡ L.name }
    requires parts { blank.parts ≡ L.parts }
    requires some { 0 < blank.parts }
{
    let mut steps = Steps::<L>::new(blank);
    agenda.least_due(moment, &mut steps)
}

#[test]
fn the_least_that_is_due_is_found(rt: HostRuntime) -> Result<(), Fail> {
    let mut agenda = Agenda::new(rt.alloc())?;
    let mut plain = PlainAgenda::new(rt.alloc());
    agenda.reserve(2)?;
    agenda.mark(7);
    plain.mark(7)?;
    agenda.set_deadline(5, Some(100));
    plain.set_deadline(5, Some(100))?;
    for (moment, want) in [(99, Some(7)), (100, Some(5))] {
        assert_eq!(rt; least::<Brand>(Blank::new(1), &agenda, moment), want);
        assert_eq!(rt; plain.least_due(moment), want);
    }
    agenda.unmark(7);
    plain.unmark(7);
    assert_eq!(rt; least::<Brand>(Blank::new(1), &agenda, 99), None);
    assert_eq!(rt; plain.least_due(99), None);
    Ok(())
}
