//! The traces of runs: the histories of boards and channels as far as a trace shows them, and their text.
#![tactic(auto)]

mod board_line;
mod draft;
mod fault;
mod items;
mod kind;
mod laws;
mod line;
mod name;
mod reading;
mod tables;
mod trace_line;
mod traces;
mod words;
mod writing;

pub use board_line::BoardLine;
pub use fault::TraceFault;
pub use items::Items;
pub use laws::one_trace;
pub use name::{Name, is_name};
pub use reading::read_trace;
pub use trace_line::TraceLine;
pub use traces::{ChannelPart, Generation, Traces};
pub use writing::trace_text;
