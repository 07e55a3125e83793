//! What was handed out under each name.

ghost use Rattle.std.specs.Prelude.{◌≡◌, [], ◌∷◌, ◌++◌, ◌+◌, ◌-◌, ◌^◌, ◌<◌, ◌≤◌, length, IfErr, IfOk, OnErr, OnOk};
ghost use Rattle.std.specs.Option.{ForSome, option_copied};
ghost use Rattle.std.specs.List.Sorted.{IsNonDecreasing};
ghost use Rattle.circular_buffer.specs.Buffer.{keep_last, last_item};
ghost use Rattle.wf_limits.specs.Hands.{ChangesOnly, IsAt, IsGapFor, IsReserved, count_of, hand_outs_of, moments_of};
ghost use Rattle.wf_limits.specs.Limits.{is_admitted};

use crate::hand::Hand;
use crate::limits::TaskLimits;
use crate::no_memory::NoMemory;
use std::alloc::Global;
use std::marker::Model;

/// The moments of hand-outs, from the oldest.
pub type Moments = Vec<u64>;

/// For each name the moments of its last 1,000 hand-outs, and how many of its attempts are in progress.
///
/// `reserve` makes a name's place, which is kept from then on. No other call that changes anything takes memory.
#[derive(Drop)]
pub struct Hands {
    hands: Vec<Hand>,
}

impl Model for Hands {
    ghost use Rattle.std.specs.Prelude.{List};
    ghost use Rattle.wf_limits.specs.Hands.{AreSorted, HandOuts};

    ghost Value = { List HandOuts };

    ghost view = { λ h. h.hands.items };

    ghost invariant = { λ h. AreSorted h.hands.items };
}

impl Hands {
    /// No name has a place yet.
    pub fn new(alloc: Global) -> Result<Hands, NoMemory>
        ensures { IfOk result (λ hands. hands ≡ []) }
    {
        Ok(Hands {
            hands: Vec::new(alloc),
        })
    }

    /// Makes the name's place, where it has none. It takes room for 1,000 moments.
    pub fn reserve(&mut self, alloc: Global, name: &[u8]) -> Result<(), NoMemory>
        ensures ok { OnOk result (ChangesOnly self.old self.new name.now (moments_of self.old name.now) (count_of self.old name.now)) }
        ensures err { OnErr result (self.new ≡ self.old) }
    {
        match self.place(name) {
            Ok(_) => Ok(()),
            Err(gap) => {
                let hand = Hand::new(alloc, name)?;
                self.hands.insert(gap, hand)?;
                Ok(())
            }
        }
    }

    /// Notes a hand-out of the name. Of more than 1,000 the oldest is forgotten.
    pub fn note(&mut self, name: &[u8], moment: u64)
        requires reserved { IsReserved self.old name.now }
        requires order { ForSome (last_item (moments_of self.old name.now)) (λ last. last ≤ moment) }
        ensures { ChangesOnly self.old self.new name.now (keep_last 1000 (moments_of self.old name.now ++ moment ∷ [])) (count_of self.old name.now) }
    {
        let Ok(place) = self.place(name) else {
            unreachable!()
        };
        self.hands[place].note(moment);
    }

    /// One more attempt of the name is in progress.
    pub fn enter(&mut self, name: &[u8])
        requires reserved { IsReserved self.old name.now }
        requires room { count_of self.old name.now < 2 ^ 56 }
        ensures { ChangesOnly self.old self.new name.now (moments_of self.old name.now) (count_of self.old name.now + 1) }
    {
        let Ok(place) = self.place(name) else {
            unreachable!()
        };
        self.hands[place].enter();
    }

    /// One attempt of the name is no longer in progress.
    pub fn leave(&mut self, name: &[u8])
        requires { 0 < count_of self.old name.now }
        ensures { ChangesOnly self.old self.new name.now (moments_of self.old name.now) (count_of self.old name.now - 1) }
    {
        let Ok(place) = self.place(name) else {
            unreachable!()
        };
        self.hands[place].leave();
    }

    /// Whether the limits admit one more hand-out of the name at the moment. A name without a place has no
    /// hand-outs and no attempts.
    pub fn admits(&self, name: &[u8], limits: &TaskLimits, moment: u64) -> bool
        ensures { result ≡ is_admitted limits.now moment (moments_of self.now name.now) (count_of self.now name.now) }
    {
        match self.find(name) {
            Some(hand) => hand.admits(limits, moment),
            None => true,
        }
    }

    /// The moments of the name's last hand-outs.
    pub fn moments(&self, alloc: Global, name: &[u8]) -> Result<Moments, NoMemory>
        ensures moments { IfOk result (λ moments. moments.items ≡ moments_of self.now name.now) }
        ensures few { IfOk result (λ moments. length moments.items ≤ 1000) }
        ensures rising { IfOk result (λ moments. IsNonDecreasing moments.items) }
    {
        match self.find(name) {
            Some(hand) => hand.moments(alloc),
            None => Ok(Vec::new(alloc)),
        }
    }

    fn find(&self, name: &[u8]) -> Option<&Hand>
        ensures { option_copied result ≡ hand_outs_of self.now name.now }
    {
        match self.place(name) {
            Ok(place) => Some(&self.hands[place]),
            Err(_) => None,
        }
    }

    /// The name's place, or the place where it would go.
    fn place(&self, name: &[u8]) -> Result<usize, usize>
        ensures found { IfOk result (λ place. IsAt self.now name.now place) }
        ensures absent { IfErr result (λ gap. IsGapFor self.now name.now gap) }
    {
        self.hands.binary_search_by(|hand| hand.name().cmp(name))
    }
}
