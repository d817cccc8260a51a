//! What a choice of tasks gives.

/// What a choice of tasks gives.
#[derive(Drop)]
pub enum Chosen {
    /// The numbers of the tasks of a bundle, in the order in which they are to run.
    Bundle(Vec<u64>),
    /// No task may be taken.
    Nothing,
}
