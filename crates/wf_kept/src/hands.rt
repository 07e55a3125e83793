//! Hand-outs by name.

ghost use Rattle.std.specs.Prelude.{◌≡◌, [], ℕ, List, map, if◌then◌else◌, IfErr, IfOk, OnOk, None, Some};
ghost use Rattle.std.specs.Option.{option_copied};
ghost use Rattle.wf_machine.specs.Queues.{with_hand};
ghost use Rattle.wf_kept.specs.Hands.{HasHandRoom, IsGap, IsNameAt, NamesRise, hands_of, row_name, was_handed_out};

use crate::hand_row::HandRow;
use crate::no_memory::NoMemory;
use std::alloc::Global;
use std::marker::Model;

/// For each name the moments of its latest 1,000 hand-outs, in milliseconds.
///
/// `reserve` makes a name ready, which it is from then on: its hand-outs are noted without memory.
#[derive(Drop)]
pub struct HandBook {
    rows: Vec<HandRow>,
}

impl Model for HandBook {
    ghost use Rattle.std.specs.Prelude.{map};
    ghost use Rattle.wf_kept.specs.Hands.{Book, NamesRise, book, row_name};

    ghost Value = { Book };

    ghost view = { λ b. book b.rows.items };

    ghost invariant = { λ b. NamesRise (map row_name b.rows.items) };
}

impl HandBook {
    /// No hand-outs, and no name is ready.
    pub fn new(alloc: Global) -> HandBook
        ensures lists { result.lists ≡ [] }
        ensures ready { result.ready ≡ [] }
    {
        HandBook {
            rows: Vec::new(alloc),
        }
    }

    /// The moments of the name, from the oldest; `None` where there are none.
    pub fn moments(&self, name: &str) -> Option<&[u64]>
        ensures { option_copied result ≡ hands_of name.now self.now.lists }
    {
        match place_of(&self.rows, name) {
            Ok(place) => noted(&self.rows[place]),
            Err(_) => None,
        }
    }

    /// Makes the name ready. It takes room for all moments that are kept of a name.
    pub fn reserve(&mut self, alloc: Global, name: &str) -> Result<(), NoMemory>
        ensures lists { self.new.lists ≡ self.old.lists }
        ensures room { OnOk result (HasHandRoom name.now self.new) }
        ensures kept { (other : List ℕ) → HasHandRoom other self.old → HasHandRoom other self.new }
    {
        match place_of(&self.rows, name) {
            Ok(_) => Ok(()),
            Err(gap) => {
                let row = HandRow::new(alloc, name)?;
                self.rows.insert(gap, row)?;
                Ok(())
            }
        }
    }

    /// Notes a hand-out of the name. Of more than 1,000 the oldest is forgotten. It takes no memory.
    pub fn note(&mut self, name: &str, moment: u64)
        requires { HasHandRoom name.now self.old }
        ensures lists { self.new.lists ≡ with_hand name.now moment self.old.lists }
        ensures ready { self.new.ready ≡ self.old.ready }
    {
        if let Ok(place) = place_of(&self.rows, name) {
            let row = &mut self.rows[place];
            row.note(moment);
        }
    }
}

/// The moments of a row, where there are any.
fn noted(row: &HandRow) -> Option<&[u64]>
    ensures { option_copied result ≡ (if was_handed_out row.now then Some row.now.moments else None) }
{
    let moments = row.moments();
    if moments.is_empty() {
        None
    } else {
        Some(moments)
    }
}

/// The place of the name's row, or the place where it belongs.
fn place_of(rows: &[HandRow], name: &str) -> Result<usize, usize>
    requires { NamesRise (map row_name rows.now) }
    ensures found { IfOk result (λ place. IsNameAt name.now (map row_name rows.now) place) }
    ensures gap { IfErr result (λ place. IsGap name.now (map row_name rows.now) place) }
{
    rows.binary_search_by(|row| row.name().cmp(name))
}
