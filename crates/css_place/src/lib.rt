//! The placer of a local store.
#![tactic(auto)]

mod gaps;
pub mod laws;
mod place;
mod placer;
mod stretch;

pub use place::Place;
pub use placer::{Full, Placer};
pub use stretch::Stretch;
