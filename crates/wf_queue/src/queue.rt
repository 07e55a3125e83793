//! One queue, and the search for it by name.

ghost use Rattle.std.specs.Prelude.{◌≡◌, ◌<◌, [], IfNone, IfSome, None, length, map, bytes_eq};
ghost use Rattle.std.specs.List.{find, position};
ghost use Rattle.wf_queue.specs.Seen.{IsFirst, seen};
ghost use Rattle.wf_queue.specs.Waiting.{is_named, waiting};

use wf_sorted::Sorted;

#[derive(Drop)]
pub struct Queue {
    pub name: Vec<u8>,
    pub waiting: Sorted,
}

impl Queue {
    fn is_named(&self, name: &[u8]) -> bool
        ensures { result ≡ bytes_eq self.now.name.items name.now }
    {
        self.name.as_slice() == name
    }
}

/// The place of the queue of that name.
pub fn place_of(queues: &[Queue], name: &[u8]) -> Option<usize>
    ensures none { IfNone result (find (is_named name.now) (map seen queues.now) ≡ None) }
    ensures some { IfSome result (λ place. (place < length queues.now) × IsFirst name.now queues.now place) }
{
    position_of(queues, name)
}

/// The place of the first queue that has that name.
fn position_of(queues: &[Queue], name: &[u8]) -> Option<usize>
    ensures { result ≡ position (λ q. bytes_eq q.name.items name.now) queues.now }
{
    queues.iter().position(|queue| queue.is_named(name))
}

/// What waits in the queue of that name.
pub fn waiting_in<'a>(queues: &'a [Queue], name: &[u8]) -> Option<&'a Sorted>
    ensures none { IfNone result (waiting name.now (map seen queues.now) ≡ []) }
    ensures some { IfSome result (λ sorted. sorted.now.entries ≡ waiting name.now (map seen queues.now)) }
{
    let place = place_of(queues, name)?;
    Some(&queues[place].waiting)
}
