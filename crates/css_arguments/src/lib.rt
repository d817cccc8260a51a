//! What a call of a task is given: its arguments, their windows, and the rules on them by themselves.
#![tactic(auto)]

mod argument;
mod call_windows;
mod judging;
mod laws;
mod window;

pub use argument::{Argument, Dims};
pub use call_windows::{window_at, windows_of};
pub use judging::{any_alias, any_dead, any_unfit, is_read, is_written, overlaps_given, room};
pub use laws::layouts_are_of_memories;
pub use window::{meets, overlaps, row_base, row_end, same, shares};
