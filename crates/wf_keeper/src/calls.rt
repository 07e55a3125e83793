//! Calls that are counted, and fail as they are told to.

ghost use Rattle.std.specs.Prelude.{◌≡◌, ◌≤◌, if◌then◌else◌};
ghost use Rattle.wf_keeper.specs.Keeping.{Rose};
ghost use Rattle.wf_keeper.specs.Memory.{called, failed, fails_next, none_made, one_more};

use std::marker::Model;

/// The numbers of the calls that fail, counted from 1, and how many were made and failed.
#[derive(Drop)]
pub struct Calls {
    fails: Vec<u64>,
    made: u64,
    faults: u64,
}

impl Model for Calls {
    ghost use Rattle.wf_keeper.specs.Memory.{Calls as CallsState};

    ghost Value = { CallsState };

    ghost view = { λ c. record { fails = c.fails.items; made = c.made; faults = c.faults } };
}

impl Calls {
    pub fn new(fails: Vec<u64>) -> Calls
        ensures { result ≡ none_made fails.items }
    {
        Calls {
            fails,
            made: 0,
            faults: 0,
        }
    }

    pub fn faults(&self) -> u64
        ensures { result ≡ self.now.faults }
    {
        self.faults
    }

    /// Whether the next call is one that fails.
    pub fn fails_next(&self) -> bool
        ensures { result ≡ fails_next self.now }
    {
        for number in self.fails.iter() {
            if *number > 0 && *number - 1 == self.made {
                return true;
            }
        }
        false
    }

    /// Counts a call that didn't fail.
    pub fn count(&mut self)
        ensures { self.new ≡ called self.old }
    {
        self.made = add_one(self.made);
    }

    /// Counts a call that failed.
    pub fn count_failed(&mut self)
        ensures counted { self.new ≡ failed self.old }
        ensures rose { (self.old.faults ≤ self.new.faults) × Rose self.old.faults self.new.faults }
    {
        self.made = add_one(self.made);
        self.faults = add_one(self.faults);
    }
}

fn add_one(count: u64) -> u64
    ensures { result ≡ one_more count }
{
    count.saturating_add(1)
}
