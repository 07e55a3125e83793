//! What the table's slot holds, and what a seat knows.
use std::collections::LinkedList;

/// The value in its slot, with the entry that was added last.
#[derive(Drop)]
pub struct Held<T, E> {
    pub value: T,
    pub last: Option<E>,
}

/// Where a seat stands between its turns.
pub enum Stage {
    /// It has no ticket.
    Idle,
    /// It waits with this ticket.
    Waits(u64),
    /// It has the turn of this ticket.
    Serves(u64),
}

/// What a seat knows. No value of it is made: contracts alone see it.
pub struct View<E, B> {
    /// Its ticket and its turn.
    pub stage: Stage,
    /// Whether it found the tickets used up.
    pub full: bool,
    /// The beginning of the history that it has seen.
    pub seen: LinkedList<E>,
    /// A beginning that a pass taken in had seen, until it is learnt.
    pub told: LinkedList<E>,
    /// The places of its own entries, rising.
    pub own: LinkedList<u64>,
    /// The base of all values behind the lock.
    pub base: Option<B>,
    /// The greatest place that it read as stored.
    pub read: u64,
    /// The place up to which the history is stored, where it has the drain right.
    pub raised: u64,
    /// Whether it has the drain right.
    pub drains: bool,
    /// Whether both of two passes that were joined had the drain right, which never is.
    pub twice: bool,
}
