//! A number with its moment.

ghost use Rattle.std.specs.Prelude.{◌≡◌};
ghost use Rattle.wf_sorted.specs.Order.{is_before, is_same};

/// A number, and the moment in milliseconds from which it counts. Entries are ordered by moment and then
/// by number.
#[derive(Clone, Copy, Debug, PartialEq, Eq)]
pub struct Entry {
    pub moment: u64,
    pub number: u64,
}

impl Entry {
    pub fn is_before(self, other: Entry) -> bool
        ensures { result ≡ is_before self other }
    {
        self.moment < other.moment || (self.moment == other.moment && self.number < other.number)
    }

    pub fn is_same(self, other: Entry) -> bool
        ensures { result ≡ is_same self other }
    {
        self.moment == other.moment && self.number == other.number
    }
}
