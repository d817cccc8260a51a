//! Tests of the memory, and of the machine over it.

mod calls;
mod codes;
mod memory;
mod operations;
mod runs;
mod tasks;
