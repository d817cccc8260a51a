//! Laws of the text that is left without its directives.
#![tactic(auto)]

mod laws;

pub use laws::{erasing_keeps_newlines, erasing_takes_directives_alone, erasing_twice_is_once};
