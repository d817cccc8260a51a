//! Structured code between a language and the machine's instructions: pieces, what they mean, and the instructions that they are laid
//! out as. The definitions are in `specs/`.
#![tactic(auto)]

mod build;
mod laws;
mod lowering;
mod part;
mod samples;

pub use build::{add, caught, choice, do_loop, looped, row, when, while_loop};
pub use laws::{
    bodies_are_sound, calls_find_their_arguments, code_has_the_dialogue, code_is_never_stuck,
    code_is_sound, pieces_are_never_stuck, tapes_of_pieces_grow, tasks_calls_find_their_dimensions,
};
pub use lowering::{body_of, lower, size_of};
pub use part::{Part, Targets, Way};
pub use samples::{a_call, a_choice, a_loop, a_tasks_call};
