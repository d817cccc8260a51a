//! The board of a generation: tasks that are submitted, taken in bundles by workers, and finished.
#![tactic(auto)]

mod board;
mod bundle;
mod cell;
mod ends;
mod job;
mod laws;
mod lines;
mod lookup;
mod post;
mod taken;
mod telling;

pub use board::Board;
pub use job::{Job, JobInput};
pub use laws::{jobs_are_run, jobs_remain};
pub use taken::Taken;
