//! Types of C as a few numbers, with a table of the lengths of arrays. The definitions are in `specs/`.
#![tactic(auto)]

mod ctype;
mod rows;
mod table;

pub use ctype::{CType, Layer};
pub use table::TypeTable;
