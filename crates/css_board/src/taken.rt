//! What a worker gets that asks for tasks.

use crate::job::Job;

/// What a worker gets that asks for tasks.
#[derive(Drop)]
pub enum Taken {
    /// The jobs of a bundle, in the order in which they are to run. It now holds their tasks behind those that it held.
    Bundle(Vec<Job>),
    /// No task may be taken.
    Nothing,
}
