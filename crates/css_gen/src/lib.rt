//! The code of whole programs of the core language: which structured code statements, functions and programs are, and that it means
//! them. The definitions are in `specs/`.
#![tactic(auto)]

mod laws;

pub use laws::{code_means_the_program, confined_code_is_sound};
