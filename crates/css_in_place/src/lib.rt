//! Laws between a task by itself and its body at its call.
#![tactic(auto)]

mod laws;

pub use laws::{
    bodies_leave_main, body_in_place, callers_wait, calls_in_place, main_calls_in_place,
    records_fit, records_in_place,
};
