//! Reading directives: the words behind `#pragma css`.
#![tactic(auto)]

mod arguments;
mod brackets;
mod clauses;
mod effects;
mod expression;
mod fronts;
mod gather;
mod laws;
mod place;
mod read;
mod spelled;
mod unread;

pub use laws::{never_both, one_directive, one_refusal};
pub use place::Place;
pub use read::read_directive;
