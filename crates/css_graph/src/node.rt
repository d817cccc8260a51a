//! What the graph keeps of a task.
use crate::state::TaskState;

/// An added task. `missing` is the count of its producers that aren't finished.
#[derive(Drop)]
pub(crate) struct Node {
    pub(crate) number: u64,
    pub(crate) producers: Vec<u64>,
    pub(crate) high: bool,
    pub(crate) state: TaskState,
    pub(crate) missing: usize,
}
