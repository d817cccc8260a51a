//! The static rules, and the core program that a tree is. The definitions are in `specs/`.
#![tactic(auto)]

mod constants;
mod formats;
mod samples;
mod words;

pub use constants::{
    Constant, binary_constant, chosen, constant_in, constant_unary, decided, is_zero,
};
pub use formats::pieces_of;
pub use samples::{accepted, refused, refused_by_rule, whole};
pub use words::{Base, named_by};
