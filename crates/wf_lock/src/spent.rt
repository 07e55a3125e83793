//! The end of the tickets.

/// The tickets are used up: 2^62 turns were drawn. Only the lock makes one.
#[derive(Clone, Copy, Debug, PartialEq, Eq)]
pub struct Spent {
    kept: (),
}

impl Spent {
    pub(crate) fn new() -> Spent {
        Spent { kept: () }
    }
}
