//! The public calls, with the input cut into pieces, a read that fails and a write that fails. `all_messages` makes an inbox and
//! calls `next_message`, so that its answers show those two as well.

use std::alloc::Global;
use std::test::Fail;
use wf_wire::{
    Clock, FieldLook, FixedClock, Items, Limits, MemorySink, MemorySource, Next, NoMemory,
    ReadSource, SystemClock, WriteSink, all_messages, write_all,
};

/// Two messages, of 61 bytes and of 16.
const INPUT: &[u8] =
    b"PUT /a%20b?c HTTP/1.1\r\nHost:  here \r\nContent-Length: 3\r\n\r\n{ }GET / HTTP/1.0\n\n";

/// What comes of the input in pieces of so many bytes, where the reads of these numbers fail.
fn items(alloc: Global, piece: u64, fails: &[u64]) -> Result<Items, NoMemory> {
    let piece = if piece == 0 { 1 } else { piece };
    let mut source = MemorySource::new(alloc, INPUT, piece, fails)?;
    Ok(all_messages(alloc, &mut source, &Limits::STANDARD))
}

#[test]
fn messages_are_read_however_their_bytes_are_cut(rt: HostRuntime) -> Result<(), Fail> {
    for piece in [1, 2, 7] {
        let found = items(rt.alloc(), piece, &[])?;
        let [first, second] = found.messages.as_slice() else {
            return Err(Fail::new("not two messages"));
        };
        assert_eq!(rt; first.offset(), 0);
        assert_eq!(rt; first.method(), b"PUT".as_slice());
        assert_eq!(rt; first.target(), b"/a%20b?c".as_slice());
        assert_eq!(rt; first.body(), b"{ }".as_slice());
        let FieldLook::One(host) = first.field("host") else {
            return Err(Fail::new("not one Host field"));
        };
        assert_eq!(rt; host, b"here".as_slice());
        assert!(rt; !first.closes());
        assert_eq!(rt; second.offset(), 61);
        assert!(rt; second.closes());
        assert!(rt; matches!(found.end, Next::End));
    }
    Ok(())
}

// In pieces of seven bytes the first message ends in the ninth, the second with the eleventh. The twelfth read finds the end.
#[test]
fn a_failed_read_ends_the_messages(rt: HostRuntime) -> Result<(), Fail> {
    for (number, count) in [(9, 0), (10, 1), (12, 2)] {
        let found = items(rt.alloc(), 7, &[number])?;
        assert_eq!(rt; found.messages.len(), count, "read {number}");
        assert!(rt; matches!(found.end, Next::ReadFault), "read {number}");
    }
    Ok(())
}

#[test]
fn a_failed_write_takes_nothing(rt: HostRuntime) -> Result<(), Fail> {
    let mut sink = MemorySink::new(rt.alloc(), 3, &[2])?;
    assert!(rt; write_all(&mut sink, b"ab").is_ok());
    assert!(rt; write_all(&mut sink, b"cd").is_err());
    assert_eq!(rt; sink.bytes(), b"ab".as_slice());
    assert!(rt; write_all(&mut sink, b"c").is_ok());
    assert_eq!(rt; sink.bytes(), b"abc".as_slice());
    Ok(())
}

#[test]
fn a_reader_gives_its_bytes(rt: HostRuntime) {
    let mut source = ReadSource::new(b"GET / HTTP/1.0\n\nGET".as_slice());
    let found = all_messages(rt.alloc(), &mut source, &Limits::STANDARD);
    assert_eq!(rt; found.messages.len(), 1);
    assert!(rt; matches!(found.end, Next::Cut(16)));
}

#[test]
fn a_writer_takes_bytes_until_it_is_full(rt: HostRuntime) {
    let mut room = [0u8; 4];
    let mut sink = WriteSink::new(room.as_mut_slice());
    assert!(rt; write_all(&mut sink, b"abcd").is_ok());
    assert!(rt; write_all(&mut sink, b"e").is_err());
    assert_eq!(rt; room.as_slice(), b"abcd".as_slice());
}

#[test]
fn clocks_tell_their_moment(rt: HostRuntime) {
    assert_eq!(rt; FixedClock(7).now(), 7);
    let mut system = SystemClock::new(&rt);
    // The clock stands after the year 2020.
    assert!(rt; system.now() > 1_577_836_800_000);
}
