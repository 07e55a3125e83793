//! The agenda.

ghost use Rattle.std.specs.Prelude.{◌≡◌, ℕ, ◌+◌, ◌<◌, ◌≤◌, ◌==◌, ◌||◌, ◌&&◌, not, if◌then◌else◌, [], OnOk, IfOk, length};
ghost use Rattle.wf_sorted.specs.Order.{passed};
ghost use Rattle.wf_timers.specs.Agenda.{IsLeastDue, deadline_of, is_marked, room_of, with_deadline, with_mark, without_mark};

use crate::deadlines::Deadlines;
use crate::marks::Marks;
use crate::no_memory::NoMemory;
use std::alloc::Global;
use std::marker::Model;
use std::sync::ledger::Ledger;
use wf_sorted::Steps;

/// Numbers, each of which may have a mark and a deadline, a moment in milliseconds.
#[derive(Drop)]
pub struct Agenda {
    marks: Marks,
    deadlines: Deadlines,
}

impl Model for Agenda {
    ghost use Rattle.std.specs.Prelude.{min};
    ghost use Rattle.wf_timers.specs.Agenda.{Planned};

    ghost Value = { Planned };

    ghost view = { λ a. record { marks = a.marks.numbers; deadlines = a.deadlines.entries; spare = min a.marks.spare a.deadlines.spare } };
}

impl Agenda {
    /// No marks and no deadlines.
    pub fn new(alloc: Global) -> Result<Agenda, NoMemory>
        ensures marks { IfOk result (λ agenda. agenda.marks ≡ []) }
        ensures deadlines { IfOk result (λ agenda. agenda.deadlines ≡ []) }
    {
        Ok(Agenda {
            marks: Marks::new(alloc),
            deadlines: Deadlines::new(alloc),
        })
    }

    /// Makes room for that many more marks and deadlines. Where memory is wanting nothing is lost.
    pub fn reserve(&mut self, more: u64) -> Result<(), NoMemory>
        ensures marks { self.new.marks ≡ self.old.marks }
        ensures deadlines { self.new.deadlines ≡ self.old.deadlines }
        ensures room { OnOk result (more ≤ self.new.spare) }
        ensures kept { self.old.spare ≤ self.new.spare }
    {
        self.marks.reserve(more)?;
        self.deadlines.reserve(more)?;
        Ok(())
    }

    /// Marks the number, once.
    pub fn mark(&mut self, number: u64)
        requires { 0 < self.old.spare }
        ensures marks { self.new.marks ≡ with_mark number self.old.marks }
        ensures marked { (n : ℕ) → is_marked n self.new.marks ≡ ((number == n) || is_marked n self.old.marks) }
        ensures deadlines { self.new.deadlines ≡ self.old.deadlines }
        ensures room { self.old.spare ≤ self.new.spare + 1 }
    {
        self.marks.mark(number);
    }

    /// Takes the number's mark away, where it has one.
    pub fn unmark(&mut self, number: u64)
        ensures marks { self.new.marks ≡ without_mark number self.old.marks }
        ensures marked { (n : ℕ) → is_marked n self.new.marks ≡ (not (number == n) && is_marked n self.old.marks) }
        ensures deadlines { self.new.deadlines ≡ self.old.deadlines }
        ensures room { self.old.spare ≤ self.new.spare }
    {
        self.marks.unmark(number);
    }

    /// Sets the number's deadline in place of the one that it had; None takes that away.
    pub fn set_deadline(&mut self, number: u64, deadline: Option<u64>)
        requires { room_of deadline ≤ self.old.spare }
        ensures deadlines { self.new.deadlines ≡ with_deadline number deadline self.old.deadlines }
        ensures each { (n : ℕ) → deadline_of n self.new.deadlines ≡ (if number == n then deadline else deadline_of n self.old.deadlines) }
        ensures marks { self.new.marks ≡ self.old.marks }
        ensures room { self.old.spare ≤ self.new.spare + room_of deadline }
    {
        self.deadlines.set(number, deadline);
    }

    /// The least number that has a mark, or a deadline that the moment has reached.
    pub fn least_due<L: Ledger>(&self, moment: u64, steps: &mut Steps<L>) -> Option<u64>
        ensures value { IsLeastDue moment self.now result }
        ensures cost { steps.new ≤ steps.old + 2 + length (passed moment self.now.deadlines) }
    {
        let marked = self.marks.first(steps);
        self.deadlines.least_passed(marked, moment, steps)
    }
}
