ghost use Rattle.baton.specs.Views.{opened_view, note_of, dealt_of, both_of, spent_view};
ghost use Rattle.baton.specs.Law.{IsLawful, Takes, Posts, Frees, Looks, Recalls, Ends};

use crate::storied::Storied;
use crate::view::View;
use atomic_table::{Join, Play, Split, TableRule};
use std::marker::PhantomData;
use std::snapshot::Snapshot;

/// What a baton is opened with.
#[derive(Drop)]
pub struct Opening<T> {
    pub value: Snapshot<T>,
    pub callers: u32,
}

/// The rule of the table: word 0 names the holder, word 1 is the length of the history, the slot has the
/// value.
pub struct Law<T> {
    of: PhantomData<T>,
}

impl<T: Storied> TableRule<Option<T>, View<T::Entry, T::Origin>, Opening<T>> for Law<T> {
    ghost holds = { λ k. IsLawful T.history T.origin (T.origin k.value.value) k.callers };

    ghost first = { λ k. opened_view 1 k.callers (T.history k.value.value) (T.origin k.value.value) };
}

/// A compare and exchange on word 0, from 0 to the own number.
pub(crate) struct Take<T> {
    of: PhantomData<T>,
}

impl<T: Storied> Play<Option<T>, View<T::Entry, T::Origin>> for Take<T> {
    ghost then = { Takes T.history T.origin };
}

/// A swap of word 1 to the new length, by the holder.
pub(crate) struct Post<T> {
    of: PhantomData<T>,
}

impl<T: Storied> Play<Option<T>, View<T::Entry, T::Origin>> for Post<T> {
    ghost then = { Posts T.history };
}

/// A swap of word 0 to 0, by the holder.
pub(crate) struct Free<T> {
    of: PhantomData<T>,
}

impl<T: Storied> Play<Option<T>, View<T::Entry, T::Origin>> for Free<T> {
    ghost then = { Frees };
}

/// A load of word 1.
pub(crate) struct Look<T> {
    of: PhantomData<T>,
}

impl<T: Storied> Play<Option<T>, View<T::Entry, T::Origin>> for Look<T> {
    ghost then = { Looks };
}

/// A load of word 0 after a join, which tells what the law says of the joined view.
pub(crate) struct Recall<T> {
    of: PhantomData<T>,
}

impl<T: Storied> Play<Option<T>, View<T::Entry, T::Origin>> for Recall<T> {
    ghost then = { Recalls };
}

/// A swap of word 0 to the own number, which puts the empty slot back for good.
pub(crate) struct End<T> {
    of: PhantomData<T>,
}

impl<T: Storied> Play<Option<T>, View<T::Entry, T::Origin>> for End<T> {
    ghost then = { Ends };
}

/// A note is cut from a view.
pub(crate) struct Noting;

impl<E, O> Split<View<E, O>> for Noting {
    ghost left = { λ v. v };

    ghost right = { note_of };
}

/// The pass of the next number is cut from a view.
pub(crate) struct Dealing;

impl<E, O> Split<View<E, O>> for Dealing {
    ghost left = { λ v. v };

    ghost right = { dealt_of };
}

/// A view is joined to another.
pub(crate) struct Learning;

impl<E, O> Join<View<E, O>> for Learning {
    ghost both = { both_of };

    ghost spent = { spent_view };
}
