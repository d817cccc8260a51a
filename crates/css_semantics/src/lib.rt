//! What programs mean: dialogues with a world, and the worlds. The definitions are in `specs/`; here stand laws about them, and the
//! numbers that the code shares with them.
#![tactic(auto)]

mod laws;

pub use laws::{pending_share_no_byte, units_are_within, windows_meet_by_ranges};

/// The most bytes of main's stack, where pragmas are erased.
pub const STACK_LIMIT: u32 = 1_064_960;

/// The most open calls, where pragmas are erased.
pub const OPEN_CALLS: u32 = 33_792;

/// The most bytes of main's stack in all other runs.
pub const MAIN_STACK_LIMIT: u32 = 1_048_576;

/// The most open calls of main in all other runs.
pub const MAIN_OPEN_CALLS: u32 = 32_768;
