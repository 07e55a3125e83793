//! The same calls over plain lists: each is scanned from its front, with no order of names and no ring.

ghost use Rattle.std.specs.Prelude.{◌≡◌, [], ◌∷◌, ◌++◌, ◌+◌, ◌-◌, ◌^◌, ◌<◌, ◌≤◌, length, filter, nat_eq, IfNone, IfOk, IfSome, None, OnErr, OnOk};
ghost use Rattle.std.specs.Cmp.Lexicographic.{pointwise};
ghost use Rattle.circular_buffer.specs.Buffer.{keep_last};
ghost use Rattle.wf_limits.specs.Hands.{ChangesOnly, IsFirstAt, IsReserved, count_of, hand_outs_of, moments_of};
ghost use Rattle.wf_limits.specs.Limits.{is_admitted, is_within};

use crate::limits::{TaskLimits, counts};
use crate::no_memory::NoMemory;
use std::alloc::Global;
use std::marker::Model;

#[derive(Drop)]
struct PlainHand {
    name: Vec<u8>,
    noted: Vec<u64>,
    running: u64,
}

impl Model for PlainHand {
    ghost use Rattle.std.specs.Prelude.{◌≤◌, length};
    ghost use Rattle.wf_limits.specs.Hands.{HandOuts};

    ghost Value = { HandOuts };

    ghost view = { λ h. record { name = h.name.items; moments = h.noted.items; count = h.running } };

    ghost invariant = { λ h. length h.noted.items ≤ 1000 };
}

impl PlainHand {
    fn new(alloc: Global, name: &[u8]) -> Result<PlainHand, NoMemory>
        ensures { IfOk result (λ h. h ≡ record { name = name.now; moments = []; count = 0 }) }
    {
        Ok(PlainHand {
            name: name.to_vec(alloc)?,
            noted: Vec::new(alloc),
            running: 0,
        })
    }

    fn is_named(&self, name: &[u8]) -> bool
        ensures { result ≡ pointwise nat_eq self.now.name name.now }
    {
        self.name.as_slice() == name
    }

    fn note(&mut self, moment: u64) -> Result<(), NoMemory>
        ensures ok { OnOk result (self.new ≡ record self.old { moments = keep_last 1000 (self.old.moments ++ moment ∷ []) }) }
        ensures err { OnErr result (self.new ≡ self.old) }
    {
        self.noted.push(moment)?;
        if self.noted.len() > 1000 {
            self.noted.remove(0);
        }
        Ok(())
    }

    fn enter(&mut self)
        requires { self.old.count < 2 ^ 56 }
        ensures { self.new ≡ record self.old { count = self.old.count + 1 } }
    {
        self.running += 1;
    }

    fn leave(&mut self)
        requires { 0 < self.old.count }
        ensures { self.new ≡ record self.old { count = self.old.count - 1 } }
    {
        self.running -= 1;
    }

    fn counted(&self, per: u32, moment: u64) -> usize
        ensures { result ≡ length (filter (is_within per moment) self.now.moments) }
    {
        self.noted
            .iter()
            .filter(|hand_out| counts(**hand_out, per, moment))
            .count()
    }

    fn admits(&self, limits: &TaskLimits, moment: u64) -> bool
        ensures { result ≡ is_admitted limits.now moment self.now.moments self.now.count }
    {
        let has_place = limits.concurrent == 0 || self.running < limits.concurrent as u64;
        has_place && (limits.rate == 0 || self.counted(limits.per, moment) < limits.rate as usize)
    }
}

/// The plain version of [`Hands`](crate::Hands): lists that are scanned from their fronts.
/// It meets the same clauses, and takes memory where it grows.
#[derive(Drop)]
pub struct PlainHands {
    hands: Vec<PlainHand>,
}

impl Model for PlainHands {
    ghost use Rattle.std.specs.Prelude.{List};
    ghost use Rattle.wf_limits.specs.Hands.{HandOuts};

    ghost Value = { List HandOuts };

    ghost view = { λ h. h.hands.items };
}

impl PlainHands {
    pub fn new(alloc: Global) -> PlainHands
        ensures { result ≡ [] }
    {
        PlainHands {
            hands: Vec::new(alloc),
        }
    }

    pub fn reserve(&mut self, alloc: Global, name: &[u8]) -> Result<(), NoMemory>
        ensures ok { OnOk result (ChangesOnly self.old self.new name.now (moments_of self.old name.now) (count_of self.old name.now)) }
        ensures err { OnErr result (self.new ≡ self.old) }
    {
        match self.place(name) {
            Some(_) => Ok(()),
            None => {
                let hand = PlainHand::new(alloc, name)?;
                self.hands.insert(0, hand)?;
                Ok(())
            }
        }
    }

    pub fn note(&mut self, name: &[u8], moment: u64) -> Result<(), NoMemory>
        requires { IsReserved self.old name.now }
        ensures { OnOk result (ChangesOnly self.old self.new name.now (keep_last 1000 (moments_of self.old name.now ++ moment ∷ [])) (count_of self.old name.now)) }
    {
        let Some(place) = self.place(name) else {
            unreachable!()
        };
        self.hands[place].note(moment)?;
        Ok(())
    }

    pub fn enter(&mut self, name: &[u8])
        requires reserved { IsReserved self.old name.now }
        requires room { count_of self.old name.now < 2 ^ 56 }
        ensures { ChangesOnly self.old self.new name.now (moments_of self.old name.now) (count_of self.old name.now + 1) }
    {
        let Some(place) = self.place(name) else {
            unreachable!()
        };
        self.hands[place].enter();
    }

    pub fn leave(&mut self, name: &[u8])
        requires { 0 < count_of self.old name.now }
        ensures { ChangesOnly self.old self.new name.now (moments_of self.old name.now) (count_of self.old name.now - 1) }
    {
        let Some(place) = self.place(name) else {
            unreachable!()
        };
        self.hands[place].leave();
    }

    pub fn admits(&self, name: &[u8], limits: &TaskLimits, moment: u64) -> bool
        ensures { result ≡ is_admitted limits.now moment (moments_of self.now name.now) (count_of self.now name.now) }
    {
        match self.place(name) {
            Some(place) => self.hands[place].admits(limits, moment),
            None => true,
        }
    }

    fn place(&self, name: &[u8]) -> Option<usize>
        ensures found { IfSome result (λ place. IsFirstAt self.now name.now place) }
        ensures absent { IfNone result (hand_outs_of self.now name.now ≡ None) }
    {
        for place in 0..self.hands.len() {
            if self.hands[place].is_named(name) {
                return Some(place);
            }
        }
        None
    }
}
