//! What each operator makes of its operands: the types that it allows, its type, and the core expression. The definitions are those of
//! `css_types`.
#![tactic(auto)]

mod arguments;
mod assignments;
mod conditionals;
mod operand;
mod pairs;
mod refusal;
mod unary;
mod values;
mod words;

pub use arguments::converted_arguments;
pub use assignments::{assignment, stepped};
pub use conditionals::conditional;
pub use operand::{Form, Operand, given, number, place, value};
pub use pairs::{binary_operand, indexed, sequence};
pub use refusal::{Refusal, broken};
pub use unary::{cast, size_operand, unary_operand};
pub use values::{converted_to, integer_constant, value_of};
