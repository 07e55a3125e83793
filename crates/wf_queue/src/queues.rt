//! All queues.

ghost use Rattle.std.specs.Prelude.{◌≡◌, ℕ, List, [], ◌+◌, ◌<◌, ◌≤◌, OnOk, IfOk, length, map, None};
ghost use Rattle.std.specs.List.{find};
ghost use Rattle.std.proofs.Common.{◌≢◌};
ghost use Rattle.wf_sorted.specs.Order.{holds, put, without};
ghost use Rattle.wf_queue.specs.Seen.{IsFirst, seen};
ghost use Rattle.wf_queue.specs.Waiting.{first_ready, is_named, room, waiting};

use crate::no_memory::NoMemory;
use crate::queue::{Queue, place_of, waiting_in};
use std::alloc::Global;
use std::marker::Model;
use std::sync::ledger::Ledger;
use wf_sorted::{Entry, Sorted, Steps};

/// Queues by name. A number waits in a queue with the moment, in milliseconds, from which it is ready; the
/// same pair may wait more than once.
#[derive(Drop)]
pub struct Queues {
    queues: Vec<Queue>,
}

impl Model for Queues {
    ghost use Rattle.std.specs.Prelude.{List, map};
    ghost use Rattle.wf_queue.specs.Waiting.{NamedQueue};

    ghost Value = { List NamedQueue };

    ghost use Rattle.wf_queue.specs.Seen.{seen};

    ghost view = { λ q. map seen q.queues.items };
}

impl Queues {
    /// No queues.
    pub fn new(alloc: Global) -> Result<Self, NoMemory>
        ensures { IfOk result (λ queues. queues ≡ []) }
    {
        Ok(Queues {
            queues: Vec::new(alloc),
        })
    }

    /// Makes room in the queue for that many more. Where memory is wanting nothing is lost.
    pub fn reserve(&mut self, alloc: Global, queue: &[u8], more: u64) -> Result<(), NoMemory>
        ensures waiting { (name : List ℕ) → waiting name self.new ≡ waiting name self.old }
        ensures room { OnOk result (more ≤ room queue.now self.new) }
        ensures kept { (name : List ℕ) → room name self.old ≤ room name self.new }
    {
        let place = place_or_new(&mut self.queues, alloc, queue)?;
        let named = &mut self.queues[place];
        named.waiting.reserve(more)?;
        Ok(())
    }

    /// Puts the number into the queue, ready from that moment on.
    pub fn add(&mut self, queue: &[u8], ready: u64, number: u64)
        requires { 0 < room queue.now self.old }
        ensures waiting { waiting queue.now self.new ≡ put (record { moment = ready; number = number }) (waiting queue.now self.old) }
        ensures room { room queue.now self.old ≤ room queue.now self.new + 1 }
        ensures others { (name : List ℕ) → name ≢ queue.now → waiting name self.new ≡ waiting name self.old }
        ensures other_room { (name : List ℕ) → name ≢ queue.now → room name self.new ≡ room name self.old }
    {
        if let Some(place) = place_of(&self.queues, queue) {
            let named = &mut self.queues[place];
            named.waiting.add(Entry {
                moment: ready,
                number,
            });
        }
    }

    /// Takes the number out of the queue once, and tells whether it waited there, ready from that moment on.
    pub fn take_out(&mut self, queue: &[u8], ready: u64, number: u64) -> bool
        ensures there { result ≡ holds (record { moment = ready; number = number }) (waiting queue.now self.old) }
        ensures waiting { waiting queue.now self.new ≡ without (record { moment = ready; number = number }) (waiting queue.now self.old) }
        ensures others { (name : List ℕ) → name ≢ queue.now → waiting name self.new ≡ waiting name self.old }
        ensures room { (name : List ℕ) → room name self.old ≤ room name self.new }
    {
        let Some(place) = place_of(&self.queues, queue) else {
            return false;
        };
        let named = &mut self.queues[place];
        named.waiting.take_out(Entry {
            moment: ready,
            number,
        })
    }

    /// How many wait in the queue.
    pub fn size(&self, queue: &[u8]) -> u64
        ensures { result ≡ length (waiting queue.now self.now) }
    {
        match waiting_in(&self.queues, queue) {
            Some(sorted) => sorted.len() as u64,
            None => 0,
        }
    }

    /// The number that is ready at that moment and became so first; of several the least.
    pub fn first_ready<L: Ledger>(
        &self,
        queue: &[u8],
        moment: u64,
        steps: &mut Steps<L>,
    ) -> Option<u64>
        ensures value { result ≡ first_ready moment (waiting queue.now self.now) }
        ensures cost { steps.new ≤ steps.old + 2 }
    {
        let sorted = waiting_in(&self.queues, queue)?;
        let first = sorted.get(0, steps)?;
        if first.moment <= moment {
            Some(first.number)
        } else {
            None
        }
    }
}

/// The place of the queue of that name; where there is none it is made.
fn place_or_new(queues: &mut Vec<Queue>, alloc: Global, name: &[u8]) -> Result<usize, NoMemory>
    ensures place { IfOk result (λ place. (place < length queues.new.items) × IsFirst name.now queues.new.items place) }
    ensures waiting { (other : List ℕ) → waiting other (map seen queues.new.items) ≡ waiting other (map seen queues.old.items) }
    ensures room { (other : List ℕ) → room other (map seen queues.old.items) ≤ room other (map seen queues.new.items) }
{
    match place_of(queues, name) {
        Some(place) => Ok(place),
        None => push_new(queues, alloc, name),
    }
}

/// Makes a queue of that name, and answers its place.
fn push_new(queues: &mut Vec<Queue>, alloc: Global, name: &[u8]) -> Result<usize, NoMemory>
    requires { find (is_named name.now) (map seen queues.old.items) ≡ None }
    ensures place { IfOk result (λ place. (place < length queues.new.items) × IsFirst name.now queues.new.items place) }
    ensures waiting { (other : List ℕ) → waiting other (map seen queues.new.items) ≡ waiting other (map seen queues.old.items) }
    ensures room { (other : List ℕ) → room other (map seen queues.old.items) ≤ room other (map seen queues.new.items) }
{
    let place = queues.len();
    let copy = copy_of(alloc, name)?;
    queues.push(Queue {
        name: copy,
        waiting: Sorted::new(alloc),
    })?;
    Ok(place)
}

fn copy_of(alloc: Global, name: &[u8]) -> Result<Vec<u8>, NoMemory>
    ensures { IfOk result (λ copy. copy.items ≡ name.now) }
{
    Ok(name.to_vec(alloc)?)
}
