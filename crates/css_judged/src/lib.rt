//! Main's memory under the rules on main.
#![tactic(auto)]

mod judged_memory;
mod laws;
mod objects;

pub use judged_memory::JudgedMemory;
pub use laws::{
    main_acts, main_asks, main_begins, main_calls, main_follows, main_gives, main_has_stack,
    main_stays,
};
