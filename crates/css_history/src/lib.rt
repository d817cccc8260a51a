//! Histories of boards: which are legal, what they say of tasks, and what each seat goes on to know.
#![tactic(auto)]

mod entry;
mod fixed;
mod laws;

pub use entry::Entry;
pub use fixed::Fixed;
pub use laws::{facts_remain, first_stops_are_first, values_are_tasks_own};
