//! `batch` where input comes in pieces, where reads and writes fail, and at the clock.

use std::alloc::Global;
use std::process::Abort;
use std::test::Fail;
use wf_commands::batch::batch;
use wf_commands::{Status, Word};
use wf_wire::{FixedClock, MemorySink, MemorySource, NoMemory};

/// A registration, twice, a start, and a method that isn't there.
const ORDER: &[u8] = b"POST /api/metadata/workflow HTTP/1.1\r\nContent-Length: 66\r\n\r\n\
{\"name\":\"order\",\"tasks\":[{\"name\":\"pick\",\"taskReferenceName\":\"a\"}]}\
POST /api/metadata/workflow HTTP/1.1\r\nContent-Length: 66\r\n\r\n\
{\"name\":\"order\",\"tasks\":[{\"name\":\"pick\",\"taskReferenceName\":\"a\"}]}\
POST /api/workflow/order HTTP/1.1\r\nContent-Length: 2\r\n\r\n{}\
GET /api/workflow HTTP/1.1\r\n\r\n";

const REPLIES: &[u8] = b"HTTP/1.1 200 OK\r\nContent-Length: 0\r\n\r\n\
HTTP/1.1 409 Conflict\r\nContent-Type: application/json\r\nContent-Length: 61\r\n\r\n\
{\"code\":\"EXISTS\",\"message\":\"already registered\",\"status\":409}\
HTTP/1.1 200 OK\r\nContent-Type: text/plain\r\nContent-Length: 36\r\n\r\n\
00000001-0100-8000-8000-000000000001\
HTTP/1.1 405 Method Not Allowed\r\nAllow: POST\r\nContent-Type: application/json\r\nContent-Length: 66\r\n\r\n\
{\"code\":\"BAD_METHOD\",\"message\":\"no such method here\",\"status\":405}";

/// A flow that is started and then read.
const STARTED: &[u8] = b"POST /api/metadata/workflow HTTP/1.1\r\nContent-Length: 66\r\n\r\n\
{\"name\":\"order\",\"tasks\":[{\"name\":\"pick\",\"taskReferenceName\":\"a\"}]}\
POST /api/workflow/order HTTP/1.1\r\nContent-Length: 2\r\n\r\n{}\
GET /api/workflow/00000001-0100-8000-8000-000000000001 HTTP/1.1\r\n\r\n";

/// A run of `batch` over these bytes, which come in pieces of that size, at a clock that stands: how it ended, and the sink
/// with what it took.
fn run(
    alloc: Global,
    clock: u64,
    input: &[u8],
    piece: u64,
    failed_reads: &[u64],
    failed_writes: &[u64],
) -> Result<(Status, MemorySink), NoMemory> {
    let piece = if piece == 0 { 1 } else { piece };
    let mut source = MemorySource::new(alloc, input, piece, failed_reads)?;
    let mut sink = MemorySink::new(alloc, 65_536, failed_writes)?;
    let mut words: Vec<Word> = Vec::new(alloc);
    let word = String::from_str(alloc, "batch").map_err(|_| NoMemory)?;
    words.push(word).map_err(|_| NoMemory)?;
    let status = batch(
        alloc,
        &words,
        &mut source,
        &mut sink,
        &mut FixedClock(clock),
    );
    Ok((status, sink))
}

#[test]
fn requests_are_answered_however_they_are_cut(rt: HostRuntime) -> Result<(), Fail> {
    for piece in [1, 2, 7, 4096] {
        let (status, sink) = run(rt.alloc(), 0, ORDER, piece, &[], &[])?;
        assert_eq!(rt; status, Status::Done);
        assert_eq!(rt; sink.bytes(), REPLIES);
    }
    Ok(())
}

/// The replies were cut short after so many bytes.
fn assert_front(rt: &impl Abort, bytes: &[u8], taken: usize) {
    assert_eq!(rt; bytes.len(), taken);
    assert!(rt; REPLIES.starts_with(bytes));
}

#[test]
fn each_failed_read_leaves_a_front(rt: HostRuntime) -> Result<(), Fail> {
    for (failed, taken) in [
        (1, 0),
        (2, 0),
        (3, 38),
        (4, 38),
        (5, 176),
        (6, 277),
        (7, 443),
    ] {
        let (status, sink) = run(rt.alloc(), 0, ORDER, 64, &[failed], &[])?;
        assert_eq!(rt; status, Status::ReadFault);
        assert_front(&rt, sink.bytes(), taken);
    }
    Ok(())
}

#[test]
fn each_failed_write_leaves_a_front(rt: HostRuntime) -> Result<(), Fail> {
    for (failed, taken) in [(1, 0), (2, 38), (3, 176), (4, 277)] {
        let (status, sink) = run(rt.alloc(), 0, ORDER, 4096, &[], &[failed])?;
        assert_eq!(rt; status, Status::WriteFault);
        assert_front(&rt, sink.bytes(), taken);
    }
    Ok(())
}

/// Requests before the first that states a moment act at the clock's reading, which is cut at the last moment: a flow that is
/// started then says when it was created.
#[test]
fn the_clock_gives_the_first_moment(rt: HostRuntime) -> Result<(), Fail> {
    for (clock, created) in [
        (77, r#""createTime":77,"#),
        (9_007_199_254_740_991, r#""createTime":9007199254740991,"#),
        (9_007_199_254_740_992, r#""createTime":9007199254740991,"#),
        (u64::MAX, r#""createTime":9007199254740991,"#),
    ] {
        let (_, sink) = run(rt.alloc(), clock, STARTED, 4096, &[], &[])?;
        let text = str::from_utf8(sink.bytes()).unwrap_or("");
        assert!(rt; text.contains(created), "{created}");
    }
    Ok(())
}
