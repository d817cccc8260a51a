//! Laws between a program under the rules and the program without its directives.
#![tactic(auto)]

mod laws;

pub use laws::{
    erased_texts_have_no_directives, erased_texts_spell_the_unmarked, erasing_keeps_the_dialogue,
    points_are_the_erased_programs, unmarked_has_no_directives, verdict_is_the_erased_programs,
};
