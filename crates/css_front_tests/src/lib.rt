//! Tests of the front end over texts: the lexer, and the readers of expressions and of programs.
#![tactic(auto)]

#[cfg(test)]
mod expressions;
#[cfg(test)]
mod lexer;
#[cfg(test)]
mod programs;
#[cfg(test)]
mod texts;
