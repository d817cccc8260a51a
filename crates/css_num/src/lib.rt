//! The integer arithmetic of the language: conversions and operators on values of each type.
#![tactic(auto)]

mod arithmetic;
mod conversion;
mod evaluation;
pub mod laws;
mod operators;
mod shifts;
mod types;
mod usual_types;

pub use conversion::convert;
pub use evaluation::{binary, unary};
pub use operators::{BinOp, DivideByZero, UnOp};
pub use types::{bits, is_in_range, is_signed};
pub use usual_types::{promote, usual};
