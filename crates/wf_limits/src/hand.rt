//! What was handed out under one name.

ghost use Rattle.std.specs.Prelude.{◌≡◌, [], ◌∷◌, ◌++◌, ◌+◌, ◌-◌, ◌^◌, ◌<◌, ◌≤◌, length, filter, IfOk};
ghost use Rattle.std.specs.Option.{ForSome};
ghost use Rattle.std.specs.List.Sorted.{IsNonDecreasing};
ghost use Rattle.circular_buffer.specs.Buffer.{keep_last, last_item};
ghost use Rattle.wf_limits.specs.Limits.{is_admitted, is_within};

use crate::limits::{TaskLimits, counts};
use crate::no_memory::NoMemory;
use circular_buffer::HeapCircularBuffer;
use std::alloc::Global;
use std::marker::Model;

/// How many hand-outs of a name are kept.
const KEPT: usize = 1000;

#[derive(Drop)]
pub struct Hand {
    name: Vec<u8>,
    recent: HeapCircularBuffer<u64>,
    running: u64,
}

impl Model for Hand {
    ghost use Rattle.std.specs.Prelude.{◌≡◌, ◌≤◌, length};
    ghost use Rattle.std.specs.List.Sorted.{IsNonDecreasing};
    ghost use Rattle.wf_limits.specs.Hands.{HandOuts};

    ghost Value = { HandOuts };

    ghost view = { λ h. record { name = h.name.items; moments = h.recent.items; count = h.running } };

    ghost invariant = { λ h. (h.recent.capacity ≡ 1000) × (length h.recent.items ≤ 1000) × IsNonDecreasing h.recent.items };
}

impl Hand {
    pub fn new(alloc: Global, name: &[u8]) -> Result<Hand, NoMemory>
        ensures { IfOk result (λ h. h ≡ record { name = name.now; moments = []; count = 0 }) }
    {
        Ok(Hand {
            name: name.to_vec(alloc)?,
            recent: HeapCircularBuffer::with_capacity(alloc, KEPT)?,
            running: 0,
        })
    }

    pub fn name(&self) -> &[u8]
        ensures { result.now ≡ self.now.name }
    {
        self.name.as_slice()
    }

    pub fn note(&mut self, moment: u64)
        requires { ForSome (last_item self.old.moments) (λ last. last ≤ moment) }
        ensures { self.new ≡ record self.old { moments = keep_last 1000 (self.old.moments ++ moment ∷ []) } }
    {
        self.recent.push_back(moment);
    }

    pub fn enter(&mut self)
        requires { self.old.count < 2 ^ 56 }
        ensures { self.new ≡ record self.old { count = self.old.count + 1 } }
    {
        self.running += 1;
    }

    pub fn leave(&mut self)
        requires { 0 < self.old.count }
        ensures { self.new ≡ record self.old { count = self.old.count - 1 } }
    {
        self.running -= 1;
    }

    pub fn admits(&self, limits: &TaskLimits, moment: u64) -> bool
        ensures { result ≡ is_admitted limits.now moment self.now.moments self.now.count }
    {
        let has_place = limits.concurrent == 0 || self.running < limits.concurrent as u64;
        has_place && (limits.rate == 0 || self.counted(limits.per, moment) < limits.rate as usize)
    }

    /// How many hand-outs count at the moment.
    fn counted(&self, per: u32, moment: u64) -> usize
        ensures { result ≡ length (filter (is_within per moment) self.now.moments) }
    {
        self.recent
            .iter()
            .filter(|hand_out| counts(**hand_out, per, moment))
            .count()
    }

    pub fn moments(&self, alloc: Global) -> Result<Vec<u64>, NoMemory>
        ensures moments { IfOk result (λ moments. moments.items ≡ self.now.moments) }
        ensures few { IfOk result (λ moments. length moments.items ≤ 1000) }
        ensures rising { IfOk result (λ moments. IsNonDecreasing moments.items) }
    {
        Ok(self.recent.to_vec(alloc)?)
    }
}
