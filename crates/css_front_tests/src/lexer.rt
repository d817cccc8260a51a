//! Tests of the lexer, of macros, and of the text that is left without its directives.

mod erasing;
mod replacing;
mod tokens;
