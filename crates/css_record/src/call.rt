//! Calls of tasks, as they are shown.
use crate::task_record::TaskRecord;

/// A call of a task that is shown.
#[derive(Drop)]
pub struct Call {
    pub rec: TaskRecord,
    /// For each argument whether its object was pending and gets a new version.
    pub renamed: Vec<bool>,
    /// The tasks that made what it reads, in rising order.
    pub producers: Vec<u64>,
}
