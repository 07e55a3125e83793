//! The public calls, some by way of others.

use std::alloc::Global;
use std::test::Fail;
use wf_keeper::{Batch, Change, Kept, MemoryKeeper, NoMemory, Row, RowKey, Tables};

fn pick(alloc: Global) -> Result<RowKey, NoMemory> {
    RowKey::new(alloc, b'T', "pick")
}

/// One row at `pick` with the body `1`.
fn one_row(alloc: Global) -> Result<Tables, NoMemory> {
    let mut tables = Tables::new(alloc);
    tables.set(pick(alloc)?, String::from_str(alloc, "1")?)?;
    Ok(tables)
}

/// Puts `2` at `pick`, and then deletes it.
fn changes(alloc: Global, place: u64) -> Result<Batch, NoMemory> {
    let mut batch = Batch::new(alloc, place);
    batch.put(pick(alloc)?, "2")?;
    batch.delete(pick(alloc)?)?;
    Ok(batch)
}

fn is_one_row(row: Option<&Row>) -> bool {
    match row {
        Some(row) => row.key().kind() == b'T' && row.key().key() == "pick" && row.body() == "1",
        None => false,
    }
}

fn is_put(change: Option<&Change>) -> bool {
    match change {
        Some(change) => change.key().key() == "pick" && change.body() == Some("2"),
        None => false,
    }
}

#[test]
fn a_body_is_put_found_and_removed(rt: HostRuntime) -> Result<(), Fail> {
    let pick = pick(rt.alloc())?;
    let mut tables = one_row(rt.alloc())?;
    assert_eq!(rt; tables.get(&pick), Some("1"));
    assert!(rt; is_one_row(tables.at(0)));
    assert_eq!(rt; tables.rows().len(), 1);
    tables.remove(&pick);
    assert!(rt; tables.is_empty());
    Ok(())
}

#[test]
fn a_batch_is_its_changes(rt: HostRuntime) -> Result<(), Fail> {
    let mut batch = Batch::new(rt.alloc(), 4).at_place(7);
    let other = changes(rt.alloc(), 1)?;
    batch.reserve(other.len())?;
    batch.append(other);
    assert_eq!(rt; batch.place(), 7);
    assert!(rt; !batch.is_empty());
    assert!(rt; is_put(batch.get(0)));
    assert_eq!(rt; batch.changes().len(), 2);
    Ok(())
}

#[test]
fn a_commit_has_a_receipt_and_each_stop_is_kept(rt: HostRuntime) -> Result<(), Fail> {
    let batch = changes(rt.alloc(), 3)?;
    let mut kept = Kept::new(MemoryKeeper::new(rt.alloc(), one_row(rt.alloc())?, &[])?);
    assert_eq!(rt; kept.load()?.len(), 1);
    assert_eq!(rt; kept.commit(&batch)?.place(), 3);
    assert_eq!(rt; kept.faults(), 0);
    let keeper = kept.into_keeper();
    assert_eq!(rt; keeper.stops(), 2);
    assert!(rt; keeper.stop(0).is_some());
    assert!(rt; keeper.tables().is_empty());
    Ok(())
}
