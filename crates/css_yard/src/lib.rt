//! Where tasks run: what every yard promises, and the yard that runs each task when it is submitted.
#![tactic(auto)]

mod answer;
mod done;
mod in_order;
mod laws;
mod note;
mod running;
mod standing;
mod yard;

pub use answer::YardAnswer;
pub use in_order::InOrder;
pub use laws::{
    generations_grow, later_submits_change_no_end, later_submits_change_no_value, one_end,
    one_first_stop, one_value,
};
pub use yard::Yard;
