//! Numbers with a deadline.

ghost use Rattle.std.specs.Prelude.{◌≡◌, ◌+◌, ◌<◌, ◌≤◌, [], None, OnOk, length};
ghost use Rattle.std.specs.List.{insert};
ghost use Rattle.std.specs.List.Sorted.{IsPartitionPoint};
ghost use Rattle.std.specs.Vec.{vec_capacity, vec_len};
ghost use Rattle.std.specs.Prelude.{nat_lt, true, false};
ghost use Rattle.wf_sorted.specs.Order.{passed};
ghost use Rattle.wf_timers.specs.Agenda.{deadline_of, put_deadline, room_of, with_deadline, without_deadline};
ghost use Rattle.wf_timers.specs.Kept.{RiseFrom, least_passed, lesser, lesser_of};

use crate::no_memory::NoMemory;
use std::alloc::Global;
use std::marker::Model;
use std::sync::ledger::Ledger;
use wf_sorted::{Entry, Sorted, Steps};

/// Each number's deadline, twice: by number, so that it is found, and by moment, so that the passed ones stand in
/// front.
#[derive(Drop)]
pub struct Deadlines {
    by_number: Vec<Entry>,
    by_moment: Sorted,
}

impl Model for Deadlines {
    ghost use Rattle.std.specs.Prelude.{◌≡◌, ◌-◌, min};
    ghost use Rattle.std.specs.Vec.{vec_capacity, vec_len};
    ghost use Rattle.wf_timers.specs.Kept.{Dated, RiseFrom, ordered};

    ghost Value = { Dated };

    ghost view = { λ d. record { entries = d.by_number.items; spare = min (vec_capacity d.by_number - vec_len d.by_number) d.by_moment.spare } };

    ghost invariant = { λ d. RiseFrom 0 d.by_number.items × (d.by_moment.entries ≡ ordered d.by_number.items) };
}

impl Deadlines {
    pub fn new(alloc: Global) -> Deadlines
        ensures { result.entries ≡ [] }
    {
        Deadlines {
            by_number: Vec::new(alloc),
            by_moment: Sorted::new(alloc),
        }
    }

    pub fn reserve(&mut self, more: u64) -> Result<(), NoMemory>
        ensures entries { self.new.entries ≡ self.old.entries }
        ensures room { OnOk result (more ≤ self.new.spare) }
        ensures kept { self.old.spare ≤ self.new.spare }
    {
        self.by_number.reserve(more as usize)?;
        self.by_moment.reserve(more)?;
        Ok(())
    }

    /// Sets the number's deadline in place of the one that it had.
    pub fn set(&mut self, number: u64, deadline: Option<u64>)
        requires { room_of deadline ≤ self.old.spare }
        ensures entries { self.new.entries ≡ with_deadline number deadline self.old.entries }
        ensures room { self.old.spare ≤ self.new.spare + room_of deadline }
    {
        self.forget(number);
        if let Some(moment) = deadline {
            self.add(Entry { moment, number });
        }
    }

    fn forget(&mut self, number: u64)
        ensures entries { self.new.entries ≡ without_deadline number self.old.entries }
        ensures room { self.old.spare ≤ self.new.spare }
    {
        let place = place_of(&self.by_number, number);
        if place < self.by_number.len() && self.by_number[place].number == number {
            let entry = self.by_number.remove(place);
            self.by_moment.take_out(entry);
        }
    }

    fn add(&mut self, entry: Entry)
        requires room { 0 < self.old.spare }
        requires new { deadline_of entry.number self.old.entries ≡ None }
        ensures entries { self.new.entries ≡ put_deadline entry self.old.entries }
        ensures room { self.old.spare ≤ self.new.spare + 1 }
    {
        let place = place_of(&self.by_number, entry.number);
        insert_at(&mut self.by_number, place, entry);
        self.by_moment.add(entry);
    }

    /// The least of the first number and of all whose deadline has passed.
    pub fn least_passed<L: Ledger>(
        &self,
        first: Option<u64>,
        moment: u64,
        steps: &mut Steps<L>,
    ) -> Option<u64>
        ensures value { result ≡ lesser_of first (least_passed moment self.now.entries) }
        ensures order { RiseFrom 0 self.now.entries }
        ensures cost { steps.new ≤ steps.old + 1 + length (passed moment self.now.entries) }
    {
        let mut least = first;
        for place in 0..self.by_moment.len() {
            match self.by_moment.get(place, steps) {
                Some(entry) if entry.moment <= moment => {
                    least = Some(lesser(entry.number, least));
                }
                _ => return least,
            }
        }
        least
    }
}

fn lesser(number: u64, other: Option<u64>) -> u64
    ensures { result ≡ lesser number other }
{
    match other {
        Some(other) => number.min(other),
        None => number,
    }
}

/// The place before which all numbers are less; it is searched by halves.
fn place_of(entries: &[Entry], number: u64) -> usize
    requires { RiseFrom 0 entries.now }
    ensures bound { result ≤ length entries.now }
    ensures parted { IsPartitionPoint (λ e. nat_lt e.number number ≡ true) (λ e. nat_lt e.number number ≡ false) entries.now result }
{
    entries.partition_point(|entry| entry.number < number)
}

/// Inserts the entry into spare room.
fn insert_at(entries: &mut Vec<Entry>, place: usize, entry: Entry)
    requires place { place ≤ vec_len entries.old }
    requires room { vec_len entries.old < vec_capacity entries.old }
    ensures items { entries.new.items ≡ insert entries.old.items place entry }
    ensures len { vec_len entries.new ≡ vec_len entries.old + 1 }
    ensures capacity { vec_capacity entries.old ≤ vec_capacity entries.new }
{
    let _ = entries.insert(place, entry);
}
