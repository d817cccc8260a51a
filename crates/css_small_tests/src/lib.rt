//! Tests of the small language: the programs that texts spell, and the code that is made of them.
#![tactic(auto)]

#[cfg(test)]
mod code;
#[cfg(test)]
mod programs;
