//! Main's memory.
#![tactic(auto)]

mod main_memory;
mod rows;

pub use main_memory::MainMemory;
