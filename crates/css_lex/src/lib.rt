//! The lexer: translation phases 4 and 6 of C99 5.1.1.2 over the lexemes of a text.
#![tactic(auto)]

mod bad_bytes;
mod breach;
mod definition;
mod directive;
mod expanding;
mod hash_line;
mod joining;
mod laws;
mod lexing;
mod line;
mod numbered;
mod words;

pub use breach::Breach;
pub use css_lexemes::erase;
pub use laws::{lexed_or_refused, one_lexing};
pub use lexing::lex;
