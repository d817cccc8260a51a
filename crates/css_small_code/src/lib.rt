//! The code maker of the small language: what a program means, its code, and that the two have one dialogue in every world.
#![tactic(auto)]

mod entry;
mod expressions;
mod functions;
mod instructions;
mod laws;
mod maker;
mod operator_code;
mod rows;
mod simple;
mod statements;

pub use laws::{enough_fuel, enough_fuel_judged, more_fuel, one_verdict, program_has_verdict};
pub use maker::make_code;
pub use rows::{
    reading_unsynchronised_is_refused, waiting_writes_five, writing_outside_is_refused,
};
