//! The same calls over one plain list in no order, which is scanned from its front.

ghost use Rattle.std.specs.Prelude.{◌≡◌, ℕ, List, [], ◌<◌, OnOk, IfNone, IfOk, IfSome, true, false, ◌&&◌, nat_le, bytes_eq, filter, length, slice_index_or};
ghost use Rattle.std.proofs.Common.{◌≢◌};
ghost use Rattle.wf_sorted.specs.Order.{holds, least, lesser, passed, put, without};
ghost use Rattle.wf_queue.specs.Plain.{Waiter, as_queues, is_waiter, waiting_of};
ghost use Rattle.wf_queue.specs.Waiting.{first_ready, waiting};

use crate::no_memory::NoMemory;
use std::alloc::Global;
use std::marker::Model;
use wf_sorted::Entry;

#[derive(Drop)]
struct PlainItem {
    queue: Vec<u8>,
    entry: Entry,
}

impl Model for PlainItem {
    ghost use Rattle.wf_queue.specs.Plain.{Waiter};

    ghost Value = { Waiter };

    ghost view = { λ i. record { name = i.queue.items; entry = i.entry } };
}

impl PlainItem {
    fn new(alloc: Global, queue: &[u8], entry: Entry) -> Result<PlainItem, NoMemory>
        ensures { IfOk result (λ item. item ≡ record { name = queue.now; entry = entry }) }
    {
        Ok(PlainItem {
            queue: queue.to_vec(alloc)?,
            entry,
        })
    }

    fn is_named(&self, queue: &[u8]) -> bool
        ensures { result ≡ bytes_eq self.now.name queue.now }
    {
        self.queue.as_slice() == queue
    }

    fn is(&self, queue: &[u8], entry: Entry) -> bool
        ensures { result ≡ is_waiter queue.now entry self.now }
    {
        self.is_named(queue) && self.entry.is_same(entry)
    }

    fn is_ready(&self, queue: &[u8], moment: u64) -> bool
        ensures { result ≡ (bytes_eq self.now.name queue.now && nat_le self.now.entry.moment moment) }
    {
        self.is_named(queue) && self.entry.moment <= moment
    }

    fn entry(&self) -> Entry
        ensures { result ≡ self.now.entry }
    {
        self.entry
    }
}

/// The plain version of [`Queues`](crate::Queues): one list in no order, which is scanned from its front.
/// It meets the same clauses, and takes memory where it grows.
#[derive(Drop)]
pub struct PlainQueues {
    items: Vec<PlainItem>,
}

impl Model for PlainQueues {
    ghost use Rattle.std.specs.Prelude.{List};
    ghost use Rattle.wf_queue.specs.Plain.{as_queues};
    ghost use Rattle.wf_queue.specs.Waiting.{NamedQueue};

    ghost Value = { List NamedQueue };

    ghost view = { λ q. as_queues q.items.items };
}

impl PlainQueues {
    pub fn new(alloc: Global) -> PlainQueues
        ensures { result ≡ [] }
    {
        PlainQueues {
            items: Vec::new(alloc),
        }
    }

    pub fn add(
        &mut self,
        alloc: Global,
        queue: &[u8],
        ready: u64,
        number: u64,
    ) -> Result<(), NoMemory>
        ensures waiting { OnOk result (waiting queue.now self.new ≡ put (record { moment = ready; number = number }) (waiting queue.now self.old)) }
        ensures others { (name : List ℕ) → name ≢ queue.now → waiting name self.new ≡ waiting name self.old }
    {
        let entry = Entry {
            moment: ready,
            number,
        };
        let item = PlainItem::new(alloc, queue, entry)?;
        self.items.push(item)?;
        Ok(())
    }

    pub fn take_out(&mut self, queue: &[u8], ready: u64, number: u64) -> bool
        ensures there { result ≡ holds (record { moment = ready; number = number }) (waiting queue.now self.old) }
        ensures waiting { waiting queue.now self.new ≡ without (record { moment = ready; number = number }) (waiting queue.now self.old) }
        ensures others { (name : List ℕ) → name ≢ queue.now → waiting name self.new ≡ waiting name self.old }
    {
        let entry = Entry {
            moment: ready,
            number,
        };
        let Some(place) = place_of(&self.items, queue, entry) else {
            return false;
        };
        self.items.remove(place);
        true
    }

    pub fn size(&self, queue: &[u8]) -> u64
        ensures { result ≡ length (waiting queue.now self.now) }
    {
        count(&self.items, queue) as u64
    }

    pub fn first_ready(&self, queue: &[u8], moment: u64) -> Option<u64>
        ensures value { result ≡ first_ready moment (waiting queue.now self.now) }
    {
        let first = least_ready(&self.items, queue, moment)?;
        Some(first.number)
    }
}

/// Where the entry waits first.
fn place_of(items: &[PlainItem], queue: &[u8], entry: Entry) -> Option<usize>
    ensures none { IfNone result (holds entry (waiting_of queue.now items.now) ≡ false) }
    ensures within { IfSome result (λ place. place < length items.now) }
    ensures here { IfSome result (λ place. (d : Waiter) → is_waiter queue.now entry (slice_index_or items.now place d) ≡ true) }
{
    for place in 0..items.len() {
        if items[place].is(queue, entry) {
            return Some(place);
        }
    }
    None
}

fn count(items: &[PlainItem], queue: &[u8]) -> usize
    ensures { result ≡ length (filter (λ w. bytes_eq w.name queue.now) items.now) }
{
    items.iter().filter(|item| item.is_named(queue)).count()
}

/// The least of the queue's entries that are ready.
fn least_ready(items: &[PlainItem], queue: &[u8], moment: u64) -> Option<Entry>
    ensures { result ≡ least (passed moment (waiting_of queue.now items.now)) }
{
    let mut first = None;
    for item in items {
        if item.is_ready(queue, moment) {
            first = Some(earlier(item.entry(), first));
        }
    }
    first
}

fn earlier(entry: Entry, other: Option<Entry>) -> Entry
    ensures { result ≡ lesser entry other }
{
    match other {
        Some(other) if other.is_before(entry) => other,
        _ => entry,
    }
}
