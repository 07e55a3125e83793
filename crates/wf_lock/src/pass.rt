//! Passes.
use crate::stands::Stands;
use crate::table::PassSeat;
use std::marker::Model;

/// What a caller has seen of the history, and which entries are its own.
///
/// A pass belongs to one lock. Who drops one that has the drain right leaves the lock without it.
#[derive(Drop)]
pub struct Pass<T: Stands> {
    pub(crate) seat: PassSeat<T>,
    pub(crate) number: u64,
}

impl<T: Stands> Model for Pass<T> {
    ghost use Rattle.wf_lock.specs.Passes.{PassState, state_of, IsAtRest};

    ghost Value = { PassState T.Entry T.Base };

    ghost view = { λ p. state_of p.seat p.number };

    ghost invariant = { λ p. IsAtRest p.seat.me };
}
