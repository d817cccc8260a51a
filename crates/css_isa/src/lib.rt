//! The machine's instructions, what each does, and the memory that a machine runs over. The machine itself still runs over the
//! instructions of `css_vm`, which are a part of these, and is to be moved here.
#![tactic(auto)]

mod big_endian;
pub mod cells;
mod code;
mod items;
pub mod laws;
mod name;
mod operands;
mod roles;
mod space;

pub use big_endian::{byte_count, number_of, overwrite, write_number};
pub use code::{
    ArgShape, Code, Conversion, Datum, Function, Instr, Mark, Narrow, Op, ShiftWidth, TaskShape,
};
pub use items::Items;
pub use name::{Name, is_name};
pub use operands::{Asked, Worked, effect};
pub use roles::{goes_on, needed};
pub use space::{Space, Width};
