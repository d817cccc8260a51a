//! The rule of the table, and the steps of the lock with what each tells. These types are for the proofs alone.
ghost use Rattle.css_seen.specs.Seats.{seat_first, seat_after_split, seat_split_off, seat_after_join, seat_spent};
ghost use Rattle.css_seen.specs.Rule.{IsKept};
ghost use Rattle.css_seen.specs.Steps.{Takes, GivesBack, LooksAgain};

use crate::seat_view::SeatView;
use crate::told::Told;
use atomic_table::{Join, Play, Split, TableRule};
use std::marker::PhantomData;
use std::snapshot::Snapshot;

// The first seat is that of the first pass, over the value that the lock is made with.
pub struct LockRule<T> {
    marker: PhantomData<T>,
}

impl<T: Told> TableRule<Option<T>, SeatView<T::Entry, T::Fixed>, Snapshot<T>> for LockRule<T> {
    ghost holds = { λ k. IsKept T.history T.maker T.fixed (T.fixed k.value) };

    ghost first = { λ k. seat_first (T.fixed k.value) };
}

// The exchange by which a pass enters, whether it wins the value or finds the lock held.
pub(crate) struct TryTake<T> {
    marker: PhantomData<T>,
}

impl<T: Told> Play<Option<T>, SeatView<T::Entry, T::Fixed>> for TryTake<T> {
    ghost then = { Takes T.history T.maker T.fixed };
}

// The store by which a pass leaves.
pub(crate) struct GiveBack<T> {
    marker: PhantomData<T>,
}

impl<T: Told> Play<Option<T>, SeatView<T::Entry, T::Fixed>> for GiveBack<T> {
    ghost then = { GivesBack T.history T.maker T.fixed };
}

// The look at the word after a join.
pub(crate) struct LookAgain;

impl<T, E, F> Play<Option<T>, SeatView<E, F>> for LookAgain {
    ghost then = { LooksAgain };
}

// The first pass splits off another.
pub(crate) struct SplitOff;

impl<E, F> Split<SeatView<E, F>> for SplitOff {
    ghost left = { seat_after_split };

    ghost right = { seat_split_off };
}

// A pass joins another, which is spent.
pub(crate) struct JoinIn;

impl<E, F> Join<SeatView<E, F>> for JoinIn {
    ghost both = { seat_after_join };

    ghost spent = { seat_spent };
}
