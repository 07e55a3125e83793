//! The hand-outs of one name.

ghost use Rattle.std.specs.Prelude.{◌≡◌, ◌+◌, ◌-◌, ◌≤◌, [], ◌∷◌, ◌++◌, drop, length, IfOk};
ghost use Rattle.std.specs.Vec.{vec_capacity};
ghost use Rattle.circular_buffer.specs.Buffer.{keep_last};
ghost use Rattle.wf_machine.specs.Queues.{moments_kept};

use crate::no_memory::NoMemory;
use std::alloc::Global;
use std::marker::Model;
use wf_doc::Text;

/// How many moments are kept of a name.
const KEPT: usize = 1000;

/// The latest moments at which tasks of a name were handed out, with room for all that are kept.
#[derive(Drop)]
pub struct HandRow {
    name: Text,
    moments: Vec<u64>,
}

impl Model for HandRow {
    ghost use Rattle.std.specs.Prelude.{◌≤◌, length};
    ghost use Rattle.std.specs.Vec.{vec_capacity};
    ghost use Rattle.wf_machine.specs.Queues.{moments_kept};
    ghost use Rattle.wf_machine.specs.declared.sight.HandList.{HandList};

    ghost Value = { HandList };

    ghost view = { λ r. record { name = r.name; moments = r.moments.items } };

    ghost invariant = { λ r. (length r.moments.items ≤ moments_kept) × (moments_kept ≤ vec_capacity r.moments) };
}

impl HandRow {
    /// No hand-outs.
    pub fn new(alloc: Global, name: &str) -> Result<HandRow, NoMemory>
        ensures { IfOk result (λ row. row ≡ record { name = name.now; moments = [] }) }
    {
        Ok(HandRow {
            name: Text::new(alloc, name)?,
            moments: Vec::with_capacity(alloc, KEPT)?,
        })
    }

    pub fn name(&self) -> &str
        ensures { result.now ≡ self.now.name }
    {
        self.name.as_str()
    }

    /// The moments, from the oldest.
    pub fn moments(&self) -> &[u64]
        ensures { result.now ≡ self.now.moments }
    {
        self.moments.as_slice()
    }

    /// Notes a hand-out. Of more than 1,000 the oldest is forgotten.
    pub fn note(&mut self, moment: u64)
        ensures { self.new ≡ record self.old { moments = keep_last moments_kept (self.old.moments ++ moment ∷ []) } }
    {
        forget_oldest(&mut self.moments);
        let _ = self.moments.push(moment);
    }
}

/// Makes room for one more moment: where all that are kept are there, the oldest goes.
fn forget_oldest(moments: &mut Vec<u64>)
    requires { length moments.old.items ≤ moments_kept }
    ensures items { moments.new.items ≡ drop (length moments.old.items + 1 - moments_kept) moments.old.items }
    ensures capacity { vec_capacity moments.new ≡ vec_capacity moments.old }
{
    if moments.len() == KEPT {
        moments.remove(0);
    }
}
