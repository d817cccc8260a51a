//! The elaboration of expressions: from a tree and a scope to a typed expression of the core. The definition is that of `css_types`.
#![tactic(auto)]

mod calls;
mod expressions;
mod formats;
mod library;
mod literals;
mod type_names;

pub use expressions::{operand_of, value_in};
pub use type_names::{starred, typed_by};
