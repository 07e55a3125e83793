//! A source and a sink of memory, with faults at will.

ghost use Rattle.std.specs.Prelude.{◌≡◌, ◌≢◌, ◌<◌, IfOk, min, []};
ghost use Rattle.wf_wire.specs.Calls.{none_made, IsGiven};

use crate::calls::Calls;
use crate::errors::{Failed, NoMemory};
use crate::sink::Sink;
use crate::source::Source;
use std::alloc::Global;
use std::marker::Model;

/// Gives bytes of memory in pieces of one size, and fails at the calls that it was told.
#[derive(Drop)]
pub struct MemorySource {
    bytes: Vec<u8>,
    start: usize,
    piece: u64,
    calls: Calls,
}

impl Model for MemorySource {
    ghost use Rattle.std.specs.Prelude.{◌≤◌, ◌<◌, length, drop};
    ghost use Rattle.wf_wire.specs.Calls.{MemorySourceState};

    ghost Value = { MemorySourceState };

    ghost view = { λ s. record { left = drop s.start s.bytes.items; piece = s.piece; calls = s.calls } };

    ghost invariant = { λ s. (s.start ≤ length s.bytes.items) × (0 < s.piece) };
}

impl MemorySource {
    /// A source of these bytes. A read gives at most `piece` of them, and the reads fail whose numbers, counted from 1, are in `fails`.
    pub fn new(
        alloc: Global,
        bytes: &[u8],
        piece: u64,
        fails: &[u64],
    ) -> Result<MemorySource, NoMemory>
        requires { piece ≢ 0 }
        ensures { IfOk result (λ source. source ≡ record { left = bytes.now; piece = piece; calls = none_made fails.now }) }
    {
        let bytes = Vec::from_slice(alloc, bytes)?;
        let fails = Vec::from_slice(alloc, fails)?;
        Ok(MemorySource {
            bytes,
            start: 0,
            piece,
            calls: Calls::new(fails),
        })
    }

    fn give(&mut self, room: &mut [u8]) -> usize
        ensures given { IsGiven self.old room.new result self.new }
        ensures piece { 0 < self.old.piece }
    {
        let count = shortest(room.len(), self.piece, self.bytes.len() - self.start);
        room[..count].copy_from_slice(&self.bytes[self.start..self.start + count]);
        self.start += count;
        count
    }
}

impl Source for MemorySource {
    ghost use Rattle.std.specs.Prelude.{Some};
    ghost use Rattle.wf_wire.specs.Stream.{Gives, Counts};
    ghost use Rattle.wf_wire.specs.Calls.{IsMemoryRead};

    ghost left = { λ s. Some s.left };

    ghost faults = { λ s. s.calls.faults };

    fn read(&mut self, room: &mut [u8]) -> Result<usize, Failed>
        ensures bytes { Gives (Some self.old.left) (Some self.new.left) room.new result }
        ensures cause { Counts self.old.calls.faults self.new.calls.faults result }
        ensures exact { IsMemoryRead self.old room.new result self.new }
    {
        if self.calls.fails_next() {
            self.calls.count_failed();
            return Err(Failed);
        }
        self.calls.count();
        Ok(self.give(room))
    }
}

fn shortest(room: usize, piece: u64, left: usize) -> usize
    ensures { result ≡ min room (min piece left) }
{
    if room <= left {
        if piece < room as u64 {
            piece as usize
        } else {
            room
        }
    } else if piece < left as u64 {
        piece as usize
    } else {
        left
    }
}

/// Takes bytes into room that was made before, and fails at the calls that it was told and where the room is full.
#[derive(Drop)]
pub struct MemorySink {
    buffer: Vec<u8>,
    used: usize,
    calls: Calls,
}

impl Model for MemorySink {
    ghost use Rattle.std.specs.Prelude.{◌≤◌, length, take};
    ghost use Rattle.wf_wire.specs.Calls.{MemorySinkState};

    ghost Value = { MemorySinkState };

    ghost view = { λ s. record { taken = take s.used s.buffer.items; room = length s.buffer.items; calls = s.calls } };

    ghost invariant = { λ s. s.used ≤ length s.buffer.items };
}

impl MemorySink {
    /// A sink for so many bytes. The writes fail whose numbers, counted from 1, are in `fails`.
    pub fn new(alloc: Global, room: u64, fails: &[u64]) -> Result<MemorySink, NoMemory>
        ensures { IfOk result (λ sink. sink ≡ record { taken = []; room = room; calls = none_made fails.now }) }
    {
        let fails = Vec::from_slice(alloc, fails)?;
        let buffer = vec![in alloc; 0u8; room as usize]?;
        Ok(MemorySink {
            buffer,
            used: 0,
            calls: Calls::new(fails),
        })
    }

    /// The bytes that were taken.
    pub fn bytes(&self) -> &[u8]
        ensures { result.now ≡ self.now.taken }
    {
        &self.buffer[..self.used]
    }
}

impl Sink for MemorySink {
    ghost use Rattle.std.specs.Prelude.{Some};
    ghost use Rattle.wf_wire.specs.Stream.{Takes, Counts};
    ghost use Rattle.wf_wire.specs.Calls.{IsMemoryWrite};

    ghost taken = { λ s. Some s.taken };

    ghost faults = { λ s. s.calls.faults };

    fn write(&mut self, piece: &[u8]) -> Result<usize, Failed>
        ensures bytes { Takes (Some self.old.taken) (Some self.new.taken) piece.now result }
        ensures cause { Counts self.old.calls.faults self.new.calls.faults result }
        ensures exact { IsMemoryWrite self.old piece.now result self.new }
    {
        let free = self.buffer.len() - self.used;
        if free == 0 || self.calls.fails_next() {
            self.calls.count_failed();
            return Err(Failed);
        }
        self.calls.count();
        let count = piece.len().min(free);
        self.buffer[self.used..self.used + count].copy_from_slice(&piece[..count]);
        self.used += count;
        Ok(count)
    }
}
