//! What no clause says: that threads get on, that no wake is lost, and when a value is dropped.

mod board;
mod many;
mod relay;
mod tally;
mod turns;
mod two;
