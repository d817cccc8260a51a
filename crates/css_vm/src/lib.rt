//! The stack machine: its instructions and its runs.
#![tactic(auto)]

mod activations;
mod big_endian;
mod cells;
mod code;
mod engine;
mod entry;
mod machine;
mod operations;
mod printed;
mod rounds;
mod space;
mod stack;
mod step;
mod submission;
mod units;

pub use big_endian::{byte_count, number_of, overwrite, write_number};
pub use code::{
    ArgShape, Code, Conversion, Function, Instr, MarkKind, Narrow, Op, ShiftWidth, TaskShape,
};
pub use machine::{Due, Event, Machine, Submitted};
pub use printed::Printed;
pub use space::{Space, Width};
