//! `check` where reads and writes fail.

use std::alloc::Global;
use std::process::Abort;
use std::test::Fail;
use wf_commands::check::check;
use wf_commands::{Status, Word};
use wf_wire::{MemorySink, MemorySource};

/// Checks a document of one task definition in pieces of 8 bytes, and compares how that ends and what is written.
fn assert_check(
    rt: &impl Abort,
    alloc: Global,
    failed_reads: &[u64],
    failed_writes: &[u64],
    status: Status,
    line: &[u8],
) -> Result<(), Fail> {
    let document = br#"[{"name":"pick"}]"#;
    let mut source = MemorySource::new(alloc, document, 8, failed_reads)?;
    let mut sink = MemorySink::new(alloc, 64, failed_writes)?;
    let mut words: Vec<Word> = Vec::new(alloc);
    words.push(String::from_str(alloc, "check")?)?;
    assert_eq!(rt; check(alloc, &words, &mut source, &mut sink), status);
    assert_eq!(rt; sink.bytes(), line);
    Ok(())
}

#[test]
fn a_document_is_judged(rt: HostRuntime) -> Result<(), Fail> {
    assert_check(&rt, rt.alloc(), &[], &[], Status::Done, b"ok\n")
}

#[test]
fn a_failed_read_says_nothing(rt: HostRuntime) -> Result<(), Fail> {
    for failed in [1, 2, 3, 4] {
        assert_check(&rt, rt.alloc(), &[failed], &[], Status::ReadFault, b"")?;
    }
    Ok(())
}

#[test]
fn a_failed_write_is_told(rt: HostRuntime) -> Result<(), Fail> {
    assert_check(&rt, rt.alloc(), &[], &[1], Status::WriteFault, b"")
}
