//! The machine over all instructions: it takes the steps of the step table over a memory and with units, from event to event.
#![tactic(auto)]

mod activations;
mod engine;
mod entry;
mod event;
mod machine;
mod operations;
mod printed;
mod rounds;
mod stack;
mod step;
mod submission;
mod turns;
mod units;

pub use event::{Event, MarkKind, Mode, Submitted};
pub use machine::{Due, Machine};
pub use printed::Printed;
