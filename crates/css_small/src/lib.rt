//! The small language: from a text to the one program that it spells.
#![tactic(auto)]

mod bodies;
mod expressions;
mod front;
mod functions;
mod name_set;
mod names;
mod statements;
mod tree;
mod tree_fault;

pub use front::{never_neither, numbers_fit, one_reading, read_program};
pub use tree::{Directive, Expression, Function, Program, Statement};
