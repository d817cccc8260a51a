//! Main's memory: globals, heap and stack, the pages on which objects are pending, and the input beside it.
#![tactic(auto)]

mod input;
mod laws;
mod layouts;
mod main_memory;
mod overlay;
mod pages;
mod start;

pub use input::Input;
pub use laws::{flat_world_has_main_memory, untouched_bytes_meet_nothing};
pub use main_memory::MainMemory;
