//! A list with room, and the hand-outs of a name, with ample memory, since no clause says that memory is there.

use std::alloc::Global;
use std::test::Fail;
use wf_kept::{HandBook, NoMemory, Roomy};

#[test]
fn a_list_has_what_was_put_into_it(rt: HostRuntime) -> Result<(), Fail> {
    let mut list = Roomy::<u32>::new(rt.alloc());
    list.reserve(3)?;
    list.add(4);
    list.add(6);
    list.insert(1, 5);
    list.set(0, 3);
    list.remove(1);
    assert_eq!(rt; list.as_slice(), [3, 6].as_slice());
    Ok(())
}

fn note(book: &mut HandBook, alloc: Global, moment: u64) -> Result<(), NoMemory> {
    book.reserve(alloc, "pack")?;
    book.note("pack", moment);
    Ok(())
}

#[test]
fn the_latest_thousand_hand_outs_are_kept(rt: HostRuntime) -> Result<(), Fail> {
    let mut book = HandBook::new(rt.alloc());
    for moment in 0..1200 {
        note(&mut book, rt.alloc(), moment)?;
    }
    let moments = book.moments("pack").unwrap_or(&[]);
    assert_eq!(rt; moments.len(), 1000);
    assert_eq!(rt; moments.first(), Some(&200));
    Ok(())
}
