//! The same calls over plain lists: each is scanned from its front, in no order.

ghost use Rattle.std.specs.Prelude.{◌≡◌, ℕ, ◌==◌, ◌||◌, if◌then◌else◌, [], OnOk, Some};
ghost use Rattle.wf_timers.specs.Agenda.{IsLeastDue, deadline_of, is_marked, without_mark};
ghost use Rattle.wf_timers.specs.Kept.{least_number, least_passed, lesser_of};

use crate::no_memory::NoMemory;
use std::alloc::Global;
use std::marker::Model;
use wf_sorted::Entry;

/// The plain version of [`Agenda`](crate::Agenda): lists that are scanned from their fronts.
/// It meets the same clauses, and takes memory where it grows.
#[derive(Drop)]
pub struct PlainAgenda {
    marks: Vec<u64>,
    deadlines: Vec<Entry>,
}

impl Model for PlainAgenda {
    ghost use Rattle.wf_timers.specs.Agenda.{Planned};

    ghost Value = { Planned };

    ghost use Rattle.wf_timers.specs.Kept.{EachOnce};

    ghost view = { λ a. record { marks = a.marks.items; deadlines = a.deadlines.items; spare = 0 } };

    ghost invariant = { λ a. EachOnce a.deadlines.items };
}

impl PlainAgenda {
    pub fn new(alloc: Global) -> PlainAgenda
        ensures marks { result.marks ≡ [] }
        ensures deadlines { result.deadlines ≡ [] }
    {
        PlainAgenda {
            marks: Vec::new(alloc),
            deadlines: Vec::new(alloc),
        }
    }

    pub fn mark(&mut self, number: u64) -> Result<(), NoMemory>
        ensures marked { OnOk result ((n : ℕ) → is_marked n self.new.marks ≡ ((number == n) || is_marked n self.old.marks)) }
        ensures deadlines { self.new.deadlines ≡ self.old.deadlines }
    {
        self.marks.push(number)?;
        Ok(())
    }

    pub fn unmark(&mut self, number: u64)
        ensures marks { self.new.marks ≡ without_mark number self.old.marks }
        ensures deadlines { self.new.deadlines ≡ self.old.deadlines }
    {
        self.marks.retain(|mark| *mark != number);
    }

    pub fn set_deadline(&mut self, number: u64, deadline: Option<u64>) -> Result<(), NoMemory>
        ensures each { OnOk result ((n : ℕ) → deadline_of n self.new.deadlines ≡ (if number == n then deadline else deadline_of n self.old.deadlines)) }
        ensures marks { self.new.marks ≡ self.old.marks }
    {
        self.deadlines.retain(|entry| entry.number != number);
        if let Some(moment) = deadline {
            self.deadlines.insert(0, Entry { moment, number })?;
        }
        Ok(())
    }

    pub fn least_due(&self, moment: u64) -> Option<u64>
        ensures value { IsLeastDue moment self.now result }
    {
        let marked = least_mark(&self.marks);
        lesser_passed(&self.deadlines, marked, moment)
    }
}

fn least_mark(marks: &[u64]) -> Option<u64>
    ensures { result ≡ least_number marks.now }
{
    let mut least = None;
    for mark in marks {
        least = lesser(*mark, least);
    }
    least
}

/// The least of the first number and of all whose deadline has passed.
fn lesser_passed(deadlines: &[Entry], first: Option<u64>, moment: u64) -> Option<u64>
    ensures { result ≡ lesser_of first (least_passed moment deadlines.now) }
{
    let mut least = first;
    for entry in deadlines {
        if entry.moment <= moment {
            least = lesser(entry.number, least);
        }
    }
    least
}

fn lesser(number: u64, other: Option<u64>) -> Option<u64>
    ensures { result ≡ lesser_of (Some number) other }
{
    match other {
        Some(other) if other < number => Some(other),
        _ => Some(number),
    }
}
