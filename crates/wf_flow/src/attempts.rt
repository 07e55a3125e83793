//! The attempts of one flow, with room for more.

ghost use Rattle.std.specs.Prelude.{◌≡◌, [], ◌∷◌, ◌++◌, ◌+◌, ◌<◌, ◌≤◌, true, map, length, slice_get, slice_set, IfNone, IfOk, IfSome, OnOk, None, Some};
ghost use Rattle.std.specs.Option.{option_copied};
ghost use Rattle.wf_machine.specs.State.{RisingFrom, attempt_numbered, canceled};
ghost use Rattle.wf_machine.specs.Records.{IsMoment};
ghost use Rattle.wf_machine.specs.Tasks.{handed_out, is_result_status, result_applied};
ghost use Rattle.wf_machine.specs.Operators.{superseded};
ghost use Rattle.wf_flow.specs.Changes.{at_place, closed, forgiven, open_numbers, poll_noted, total_noted, turned};
ghost use Rattle.wf_flow.specs.Room.{IsPlaceOf};

use crate::attempt::Attempt;
use crate::no_memory::NoMemory;
use std::alloc::Global;
use std::marker::Model;
use std::mem;
use wf_doc::{Doc, Items, Text};
use wf_machine::TaskResult;
use wf_names::{TaskNo, TaskStatus};

#[derive(Drop)]
pub struct Attempts {
    items: Vec<Attempt>,
}

impl Model for Attempts {
    ghost use Rattle.std.specs.Prelude.{◌-◌};
    ghost use Rattle.std.specs.Vec.{vec_capacity, vec_len};
    ghost use Rattle.wf_doc.specs.contracts.doc.Doc as doc;
    ghost use Rattle.std.specs.Coded.{codes};
    ghost use Rattle.wf_flow.specs.Room.{AttemptRoom};

    ghost Value = { AttemptRoom };

    ghost coded = { Prim.hlevel (codes, doc.the_row.coded) };

    ghost view = { λ a. record { items = a.items.items; spare = vec_capacity a.items - vec_len a.items } };
}

impl Attempts {
    pub fn new(alloc: Global) -> Attempts
        ensures { result.items ≡ [] }
    {
        Attempts {
            items: Vec::new(alloc),
        }
    }

    pub fn allocator(&self) -> Global {
        *self.items.allocator()
    }

    pub fn as_slice(&self) -> &[Attempt]
        ensures { result.now ≡ self.now.items }
    {
        self.items.as_slice()
    }

    pub fn len(&self) -> usize
        ensures { result ≡ length self.now.items }
    {
        self.items.len()
    }

    pub fn get(&self, place: usize) -> Option<&Attempt>
        ensures { option_copied result ≡ slice_get self.now.items place }
    {
        self.items.get(place)
    }

    /// The place of the attempt of that number.
    pub fn place(&self, task: TaskNo) -> Option<usize>
        requires { RisingFrom 1 self.now.items }
        ensures none { IfNone result (attempt_numbered task self.now.items ≡ None) }
        ensures some { IfSome result (λ place. IsPlaceOf task self.now.items place) }
    {
        self.items
            .binary_search_by_key(&task.0, |attempt| attempt.number().0)
            .ok()
    }

    pub fn reserve(&mut self, more: usize) -> Result<(), NoMemory>
        ensures items { self.new.items ≡ self.old.items }
        ensures room { OnOk result (more ≤ self.new.spare) }
        ensures kept { self.old.spare ≤ self.new.spare }
    {
        self.items.reserve(more)?;
        Ok(())
    }

    /// Puts an attempt at the end.
    pub fn add(&mut self, attempt: Attempt)
        requires { 0 < self.old.spare }
        ensures items { self.new.items ≡ self.old.items ++ attempt ∷ [] }
        ensures room { self.old.spare ≤ self.new.spare + 1 }
    {
        let _ = self.items.push(attempt);
    }

    pub fn replace(&mut self, place: usize, attempt: Attempt) -> Attempt
        requires { place < length self.old.items }
        ensures old { slice_get self.old.items place ≡ Some result }
        ensures items { self.new.items ≡ slice_set self.old.items place attempt }
        ensures room { self.new.spare ≡ self.old.spare }
    {
        mem::replace(&mut self.items[place], attempt)
    }

    /// Hands the attempt at that place out to a worker.
    pub fn hand_out(&mut self, place: usize, worker: Text, moment: u64)
        requires there { place < length self.old.items }
        requires moment { IsMoment moment }
        ensures items { IfSome (slice_get self.old.items place) (λ a. self.new.items ≡ slice_set self.old.items place (handed_out moment worker a)) }
        ensures room { self.new.spare ≡ self.old.spare }
    {
        self.items[place].hand_out(worker, moment);
    }

    /// Lets the attempt at that place take a result. `simple` tells that its node is a SIMPLE one.
    pub fn apply_result(&mut self, place: usize, simple: bool, outcome: TaskResult, moment: u64)
        requires there { place < length self.old.items }
        requires status { is_result_status outcome.status ≡ true }
        requires callback { outcome.callback ≤ 2147483647 }
        requires moment { IsMoment moment }
        ensures items { IfSome (slice_get self.old.items place) (λ a. self.new.items ≡ slice_set self.old.items place (result_applied moment simple outcome a)) }
        ensures room { self.new.spare ≡ self.old.spare }
    {
        self.items[place].apply_result(simple, outcome, moment);
    }

    /// Cancels the open attempts.
    pub fn cancel_open(&mut self, moment: u64)
        requires { IsMoment moment }
        ensures items { self.new.items ≡ map (canceled moment) self.old.items }
        ensures room { self.new.spare ≡ self.old.spare }
    {
        for attempt in self.items.iter_mut() {
            attempt.cancel(moment);
        }
    }

    /// Marks the attempt at that place, where there is one, as superseded.
    #[tactic(auto, using(crate::proofs::SpotLemmas::spot_missing))]
    pub fn supersede(&mut self, place: usize)
        ensures items { self.new.items ≡ at_place place superseded self.old.items }
        ensures room { self.new.spare ≡ self.old.spare }
    {
        if place < self.items.len() {
            self.items[place].set_superseded(true);
        }
    }

    /// Ends the attempt at that place, where there is one, with a new reason and a new output where there are some.
    #[tactic(auto, using(crate::proofs::SpotLemmas::spot_missing))]
    pub fn close(
        &mut self,
        place: usize,
        status: TaskStatus,
        reason: Option<Text>,
        output: Option<Doc>,
        moment: u64,
    )
        requires { IsMoment moment }
        ensures items { self.new.items ≡ at_place place (closed moment status reason output) self.old.items }
        ensures room { self.new.spare ≡ self.old.spare }
    {
        if place < self.items.len() {
            self.items[place].close(status, reason, output, moment);
        }
    }

    /// Notes that the poll deadline of the attempt at that place, where there is one, has passed.
    #[tactic(auto, using(crate::proofs::SpotLemmas::spot_missing))]
    pub fn note_poll(&mut self, place: usize, reason: Text, moment: u64)
        requires { IsMoment moment }
        ensures items { self.new.items ≡ at_place place (poll_noted moment reason) self.old.items }
        ensures room { self.new.spare ≡ self.old.spare }
    {
        if place < self.items.len() {
            self.items[place].note_poll(reason, moment);
        }
    }

    /// Notes that the total deadline of the attempt at that place, where there is one, has passed.
    #[tactic(auto, using(crate::proofs::SpotLemmas::spot_missing))]
    pub fn note_total(&mut self, place: usize, reason: Text, moment: u64)
        requires { IsMoment moment }
        ensures items { self.new.items ≡ at_place place (total_noted moment reason) self.old.items }
        ensures room { self.new.spare ≡ self.old.spare }
    {
        if place < self.items.len() {
            self.items[place].note_total(reason, moment);
        }
    }

    /// Lets the flow go on as if the attempt at that place, where there is one, had succeeded.
    #[tactic(auto, using(crate::proofs::SpotLemmas::spot_missing))]
    pub fn forgive(&mut self, place: usize, moment: u64)
        requires { IsMoment moment }
        ensures items { self.new.items ≡ at_place place (forgiven moment) self.old.items }
        ensures room { self.new.spare ≡ self.old.spare }
    {
        if place < self.items.len() {
            self.items[place].forgive(moment);
        }
    }

    /// Puts the loop of the attempt at that place, where there is one, into that turn.
    #[tactic(auto, using(crate::proofs::SpotLemmas::spot_missing))]
    pub fn turn_on(&mut self, place: usize, output: Doc, turn: u32, moment: u64)
        requires { IsMoment moment }
        ensures items { self.new.items ≡ at_place place (turned moment output turn) self.old.items }
        ensures room { self.new.spare ≡ self.old.spare }
    {
        if place < self.items.len() {
            self.items[place].turn_on(output, turn, moment);
        }
    }

    /// Takes all attempts away.
    pub fn clear(&mut self)
        ensures items { self.new.items ≡ [] }
        ensures room { self.old.spare ≤ self.new.spare }
    {
        self.items.clear();
    }

    /// The numbers of the open attempts, in their order.
    pub fn open(&self, alloc: Global) -> Result<Items<TaskNo>, NoMemory>
        ensures { IfOk result (λ numbers. numbers ≡ open_numbers self.now.items) }
    {
        let mut numbers = Items::new(alloc);
        for attempt in &self.items {
            if attempt.status().is_open() {
                numbers.push(attempt.number())?;
            }
        }
        Ok(numbers)
    }

    /// A list of equal attempts.
    pub fn copy(&self, alloc: Global) -> Result<Attempts, NoMemory>
        ensures { IfOk result (λ attempts. attempts.items ≡ self.now.items) }
    {
        let mut items = Vec::with_capacity(alloc, self.items.len())?;
        for attempt in &self.items {
            items.push(attempt.copy(alloc)?)?;
        }
        Ok(Attempts { items })
    }
}
