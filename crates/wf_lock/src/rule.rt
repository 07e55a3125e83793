//! The rule that the table keeps, and what each step tells.
use crate::stands::Stands;
use crate::view::{Held, View};
use atomic_table::{Join, Play, Split, TableRule};
use std::marker::PhantomData;
use std::snapshot::Snapshot;

/// The history is one, and the value behind the lock stands for it.
pub struct OneHistory<T> {
    value: PhantomData<T>,
}

impl<T: Stands> TableRule<Option<Held<T, T::Entry>>, View<T::Entry, T::Base>, Snapshot<T>>
    for OneHistory<T> {
    ghost use Rattle.wf_lock.specs.Rule.{IsOneHistory, first_view};

    ghost holds = { λ key. IsOneHistory T.base T.stands T.marked (T.base key.value) };

    ghost first = { λ key. first_view (T.base key.value) };
}

/// Reads the next ticket.
pub struct SeeTicket<T> {
    value: PhantomData<T>,
}

impl<T: Stands> Play<Option<Held<T, T::Entry>>, View<T::Entry, T::Base>> for SeeTicket<T> {
    ghost use Rattle.wf_lock.specs.Rule.{SeesTicket};

    ghost then = { SeesTicket T.marked };
}

/// Draws the ticket, where no other pass drew it before.
pub struct DrawTicket;

impl<T, E, B> Play<Option<Held<T, E>>, View<E, B>> for DrawTicket {
    ghost use Rattle.wf_lock.specs.Rule.{DrawsTicket};

    ghost then = { DrawsTicket };
}

/// Looks at the ticket that is served, and takes the value where it is the seat's own.
pub struct LookAtServing<T> {
    value: PhantomData<T>,
}

impl<T: Stands> Play<Option<Held<T, T::Entry>>, View<T::Entry, T::Base>> for LookAtServing<T> {
    ghost use Rattle.wf_lock.specs.Rule.{LooksAtServing};

    ghost then = { LooksAtServing T.base T.stands T.marked };
}

/// Adds the entry to the history, and gives the value back.
pub struct Finish;

impl<T, E, B> Play<Option<Held<T, E>>, View<E, B>> for Finish {
    ghost use Rattle.wf_lock.specs.Rule.{Finishes};

    ghost then = { Finishes };
}

/// Learns what the seat was told of.
pub struct Learn;

impl<T, E, B> Play<Option<Held<T, E>>, View<E, B>> for Learn {
    ghost use Rattle.wf_lock.specs.Rule.{Learns};

    ghost then = { Learns };
}

/// Raises the place up to which the history is stored.
pub struct Raise;

impl<T, E, B> Play<Option<Held<T, E>>, View<E, B>> for Raise {
    ghost use Rattle.wf_lock.specs.Rule.{Raises};

    ghost then = { Raises };
}

/// Reads the place up to which the history is stored.
pub struct SeeDurable;

impl<T, E, B> Play<Option<Held<T, E>>, View<E, B>> for SeeDurable {
    ghost use Rattle.wf_lock.specs.Rule.{SeesDurable};

    ghost then = { SeesDurable };
}

/// Makes a seat that has seen as much.
pub struct SplitPass;

impl<E, B> Split<View<E, B>> for SplitPass {
    ghost use Rattle.wf_lock.specs.Rule.{split_off};

    ghost left = { λ v. v };

    ghost right = { split_off };
}

/// Takes a seat in.
pub struct JoinPass;

impl<E, B> Join<View<E, B>> for JoinPass {
    ghost use Rattle.wf_lock.specs.Rule.{joined, taken_in};

    ghost both = { joined };

    ghost spent = { taken_in };
}
