//! Reading expressions.
#![tactic(auto)]

mod apply;
mod build;
mod call;
mod children;
mod closing;
mod family;
mod follow;
mod frame;
mod having;
mod laws;
mod level;
mod manner;
mod node;
mod parse;
mod prefix;
mod scan;
mod stack;
mod state;
mod step;
mod typing;
mod wanting;
mod words;

pub use laws::{balanced_brackets, one_expression};
pub use level::Level;
pub use parse::{parse_expression, parse_part};
