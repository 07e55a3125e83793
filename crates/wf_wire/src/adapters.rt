//! Sources, sinks and the clock of the system.

ghost use Rattle.std.specs.Prelude.{◌≤◌, ◌<◌, IfSome, length};

use crate::clock::Clock;
use crate::errors::Failed;
use crate::sink::Sink;
use crate::source::Source;
use std::io::{ErrorKind, Read, Write};
use std::time::{self, SystemTime, UNIX_EPOCH};

/// How often a call that a signal broke off is tried again.
const TRIES: u32 = 64;

/// A source over a reader. It tells nothing of its bytes.
///
/// A read that a signal broke off is tried again, up to 64 times. Each other error is a fault.
#[derive(Drop)]
pub struct ReadSource<R> {
    reader: R,
    faults: u64,
}

impl<R: Read> ReadSource<R> {
    pub fn new(reader: R) -> ReadSource<R> {
        ReadSource { reader, faults: 0 }
    }
}

impl<R: Read> Source for ReadSource<R> {
    ghost use Rattle.std.specs.Prelude.{None};

    ghost left = { λ s. None };

    ghost faults = { λ s. s.faults };

    fn read(&mut self, room: &mut [u8]) -> Result<usize, Failed> {
        match read_some(&mut self.reader, room) {
            Some(count) => Ok(count),
            None => {
                self.faults = self.faults.saturating_add(1);
                Err(Failed)
            }
        }
    }
}

fn read_some<R: Read>(reader: &mut R, room: &mut [u8]) -> Option<usize>
    ensures { IfSome result (λ count. count ≤ length room.new) }
{
    for _ in 0..TRIES {
        match reader.read(room) {
            Ok(count) => return Some(count),
            Err(error) => if error.kind() != ErrorKind::Interrupted {
                return None;
            }
        }
    }
    None
}

/// A sink over a writer. It tells nothing of its bytes.
///
/// A write that a signal broke off is tried again, up to 64 times. Each other error is a fault, and a write that takes nothing is too.
/// It flushes nothing: give it a writer that holds nothing back, as a socket.
#[derive(Drop)]
pub struct WriteSink<W> {
    writer: W,
    faults: u64,
}

impl<W: Write> WriteSink<W> {
    pub fn new(writer: W) -> WriteSink<W> {
        WriteSink { writer, faults: 0 }
    }
}

impl<W: Write> Sink for WriteSink<W> {
    ghost use Rattle.std.specs.Prelude.{None};

    ghost taken = { λ s. None };

    ghost faults = { λ s. s.faults };

    fn write(&mut self, piece: &[u8]) -> Result<usize, Failed> {
        if piece.is_empty() {
            return Ok(0);
        }
        match write_some(&mut self.writer, piece) {
            Some(count) => Ok(count),
            None => {
                self.faults = self.faults.saturating_add(1);
                Err(Failed)
            }
        }
    }
}

fn write_some<W: Write>(writer: &mut W, piece: &[u8]) -> Option<usize>
    ensures { IfSome result (λ count. (0 < count) × (count ≤ length piece.now)) }
{
    for _ in 0..TRIES {
        match writer.write(piece) {
            Ok(0) => return None,
            Ok(count) => return Some(count),
            Err(error) => if error.kind() != ErrorKind::Interrupted {
                return None;
            }
        }
    }
    None
}

/// The clock of the system. It tells nothing of its readings.
///
/// Where the system's clock can't be read, or stands before 1970, it gives its last reading again, and 0 if it had none.
#[derive(Clone, Copy)]
pub struct SystemClock<'a, T> {
    time: &'a T,
    last: u64,
}

impl<'a, T: time::Clock> SystemClock<'a, T> {
    pub fn new(time: &'a T) -> SystemClock<'a, T> {
        SystemClock { time, last: 0 }
    }
}

fn milliseconds_of(time: SystemTime) -> Option<u64> {
    match time.duration_since(UNIX_EPOCH) {
        Ok(elapsed) => Some(elapsed.as_millis().min(u64::MAX as u128) as u64),
        Err(_) => None,
    }
}

impl<T: time::Clock> Clock for SystemClock<'_, T> {
    ghost use Rattle.std.specs.Prelude.{None};

    ghost readings = { λ c. None };

    fn now(&mut self) -> u64 {
        if let Ok(time) = SystemTime::now(self.time)
            && let Some(moment) = milliseconds_of(time)
        {
            self.last = moment;
        }
        self.last
    }
}
