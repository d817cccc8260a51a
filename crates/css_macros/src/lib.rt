//! Macros (C99 6.10.3): the table of them, and what replaces a token, counted.
#![tactic(auto)]

mod counts;
mod expansion;
mod listed_token;
mod macro_laws;
mod macro_token;
mod macros;

pub use counts::{Counts, ExpansionFault};
pub use expansion::Span;
pub use macro_laws::{
    defining_sets_one_name, levels_are_enough, other_names_stay, tokens_replace_a_macro,
    undefining_takes_one_name,
};
pub use macro_token::MacroToken;
pub use macros::Macros;
