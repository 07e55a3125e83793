//! Numbers with a mark.

ghost use Rattle.std.specs.Prelude.{◌≡◌, ◌+◌, ◌<◌, ◌≤◌, [], OnOk};
ghost use Rattle.wf_timers.specs.Agenda.{with_mark, without_mark};
ghost use Rattle.wf_timers.specs.Kept.{least_number};

use crate::no_memory::NoMemory;
use std::alloc::Global;
use std::marker::Model;
use std::sync::ledger::Ledger;
use wf_sorted::{Entry, Sorted, Steps};

/// The numbers with a mark, sorted, each as an entry without a moment.
#[derive(Drop)]
pub struct Marks {
    sorted: Sorted,
}

impl Model for Marks {
    ghost use Rattle.wf_timers.specs.Kept.{AreMarks, Marked, numbers_of};

    ghost Value = { Marked };

    ghost view = { λ m. record { numbers = numbers_of m.sorted.entries; spare = m.sorted.spare } };

    ghost invariant = { λ m. AreMarks 0 m.sorted.entries };
}

impl Marks {
    pub fn new(alloc: Global) -> Marks
        ensures { result.numbers ≡ [] }
    {
        Marks {
            sorted: Sorted::new(alloc),
        }
    }

    pub fn reserve(&mut self, more: u64) -> Result<(), NoMemory>
        ensures numbers { self.new.numbers ≡ self.old.numbers }
        ensures room { OnOk result (more ≤ self.new.spare) }
        ensures kept { self.old.spare ≤ self.new.spare }
    {
        self.sorted.reserve(more)?;
        Ok(())
    }

    pub fn mark(&mut self, number: u64)
        requires { 0 < self.old.spare }
        ensures numbers { self.new.numbers ≡ with_mark number self.old.numbers }
        ensures room { self.old.spare ≤ self.new.spare + 1 }
    {
        let entry = Entry { moment: 0, number };
        self.sorted.take_out(entry);
        self.sorted.add(entry);
    }

    pub fn unmark(&mut self, number: u64)
        ensures numbers { self.new.numbers ≡ without_mark number self.old.numbers }
        ensures room { self.old.spare ≤ self.new.spare }
    {
        self.sorted.take_out(Entry { moment: 0, number });
    }

    /// The least number with a mark.
    pub fn first<L: Ledger>(&self, steps: &mut Steps<L>) -> Option<u64>
        ensures value { result ≡ least_number self.now.numbers }
        ensures cost { steps.new ≡ steps.old + 1 }
    {
        let first = self.sorted.get(0, steps)?;
        Some(first.number)
    }
}
