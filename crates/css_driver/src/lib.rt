//! What the program does as a whole: from words, files and an input to an output, a report and a status.
#![tactic(auto)]

mod answers;
mod built;
mod check;
mod ending;
mod erased_text;
mod finish;
mod laws;
mod plain_program;
mod program;
mod run;
mod run_text;

pub use finish::no_memory_for_words;
pub use laws::{never_unanswered, one_answer, one_text_answer, programs_have_answers};
pub use plain_program::plain_top;
pub use program::top;
