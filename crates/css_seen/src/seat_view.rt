//! What the seat of a pass knows.
use std::collections::LinkedList;

// It exists in proofs alone: no value of it is made.
pub struct SeatView<E, F> {
    // As in the view that contracts see: the number of the pass, the history as it last saw it, and the entries that it made.
    pub number: u64,
    pub seen: LinkedList<E>,
    pub made: LinkedList<E>,
    // The passes that it has joined, each by its number and the entries that it had made.
    pub joined: LinkedList<(u64, LinkedList<E>)>,
    // The seen list of a pass that is being joined.
    pub pending: LinkedList<E>,
    // How many passes it has split off.
    pub splits: u64,
    // Whether it holds the lock.
    pub inside: bool,
    // The fixed part of the value: none of a spent seat.
    pub fixed: Option<F>,
    // Whether another pass has joined it.
    pub spent: bool,
}
