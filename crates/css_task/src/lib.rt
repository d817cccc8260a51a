//! Tasks by themselves.
#![tactic(auto)]

mod arguments;
mod body;
mod given;
mod offsets;
mod placed;
mod room;
mod shared;
mod task_stack;
mod windows;

pub use shared::{SharedEnd, run_shared};
