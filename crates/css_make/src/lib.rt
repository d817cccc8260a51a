//! The generated program: a product of two block matrices, in as many sizes as there are numbers.
#![tactic(auto)]

mod numbers;
mod sizes;
mod text;

pub use numbers::shape;
pub use sizes::Shape;
pub use text::make_text;
