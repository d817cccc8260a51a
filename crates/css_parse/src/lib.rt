//! Reading programs: declarations, statements and items.
#![tactic(auto)]

mod brackets;
mod copies;
mod declaration;
mod expression;
mod form;
mod fronts;
mod gather;
mod initialiser;
mod item;
mod keyword;
mod laws;
mod low;
mod parameters;
mod program;
mod statement;
mod unspelled;
mod unsupported;
mod words;

pub use laws::{
    balanced_brackets, items_end_by_themselves, never_both, never_neither, one_refusal, one_tree,
    token_behind,
};
pub use program::parse;
