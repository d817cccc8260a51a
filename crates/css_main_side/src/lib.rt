//! Main's side of a run: its output on the way to a sink, how its run ends, and its run over a yard.
#![tactic(auto)]

mod ends;
mod main_run;
mod output_buffer;
mod ran;
mod tasks;

pub use main_run::play;
pub use output_buffer::OutputBuffer;
pub use ran::Ran;
