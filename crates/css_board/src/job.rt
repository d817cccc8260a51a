//! What a worker needs of a task to run it.
ghost use Rattle.std.specs.Prelude.{◌≡◌, IfOk, slice_get, Some};
ghost use Rattle.css_board.specs.Jobs.{IsCopy};

use css_base::{Buffer, NoMemory};
use css_record::TaskRecord;
use std::alloc::Global;

/// An input of a task.
#[derive(Drop)]
pub enum JobInput {
    /// Its value.
    Ready(Buffer),
    /// The version is made by an earlier task of the same bundle.
    Chained { task: u64, out: u32 },
}

/// A task with its inputs.
#[derive(Drop)]
pub struct Job {
    pub rec: TaskRecord,
    /// One for each reading parameter, in order.
    pub inputs: Vec<JobInput>,
}

/// A copy of a record.
pub(crate) fn copy_record(alloc: Global, rec: &TaskRecord) -> Result<TaskRecord, NoMemory>
    ensures { IfOk result (λ copy. IsCopy rec.now copy) }
{
    let scalars = Vec::from_slice(alloc, rec.scalars.as_slice())?;
    let windows = Vec::from_slice(alloc, rec.windows.as_slice())?;
    let inputs = Vec::from_slice(alloc, rec.inputs.as_slice())?;
    Ok(TaskRecord {
        number: rec.number,
        function: rec.function,
        scalars,
        windows,
        stack_place: rec.stack_place,
        inputs,
        high: rec.high,
        line: rec.line,
    })
}
