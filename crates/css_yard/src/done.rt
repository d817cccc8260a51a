//! Tasks that have run, what they made, and which of them stopped first.
ghost use Rattle.std.specs.Prelude.{◌≡◌, IfOk, slice_get, option_map};
ghost use Rattle.css_yard.specs.Kept.{first_number as number_of_first, out_of, value_at, values_at, first_stop as stop_in, stopping};

use crate::answer::YardAnswer;
use css_base::{Buffer, Line, NoMemory, Stop};
use css_record::{TaskRecord, VersionName};
use css_task::SharedEnd;
use std::alloc::Global;
use std::snapshot::Snapshot;

/// A task that was submitted, and the end that it came to: none where an input has no value, because a task before it stopped. Its
/// record and the buffers that were given with it stand here for contracts alone.
#[derive(Drop)]
pub struct Done {
    pub number: u64,
    pub rec: Snapshot<TaskRecord>,
    pub given: Snapshot<Vec<Buffer>>,
    pub end: Option<SharedEnd>,
}

/// A task that stops, and where.
#[derive(Clone, Copy)]
pub struct Halt {
    pub task: u64,
    pub stop: Stop,
    pub line: Line,
}

impl Halt {
    // As a yard answers it.
    pub(crate) fn answer(self) -> YardAnswer
        ensures { result ≡ YardAnswer.Stopped self.task self.stop self.line }
    {
        YardAnswer::Stopped {
            task: self.task,
            stop: self.stop,
            line: self.line,
        }
    }
}

// The number of the first task.
fn first_number(tasks: &[Done]) -> u64
    ensures { result ≡ number_of_first tasks.now }
{
    match tasks.first() {
        Some(done) => done.number,
        None => 0,
    }
}

// One more owner of the buffer at a place, where there is one.
fn share_at(buffers: &[Buffer], place: usize) -> Result<Option<Buffer>, NoMemory>
    ensures { IfOk result (λ b. b ≡ slice_get buffers.now place) }
{
    match buffers.get(place) {
        Some(buffer) => Ok(Some(buffer.share()?)),
        None => Ok(None),
    }
}

// One of what a task made, where it came to its end and made that many.
fn share_out(end: &Option<SharedEnd>, out: usize) -> Result<Option<Buffer>, NoMemory>
    ensures { IfOk result (λ b. b ≡ out_of end.now out) }
{
    match end {
        Some(SharedEnd::Outs(outs)) => share_at(outs.as_slice(), out),
        _ => Ok(None),
    }
}

// The value of a version, where it is there: one of the given buffers, or what a task made.
pub(crate) fn share_value(
    tasks: &[Done],
    given: &[Buffer],
    version: VersionName,
) -> Result<Option<Buffer>, NoMemory>
    ensures { IfOk result (λ b. b ≡ value_at tasks.now given.now version) }
{
    match version {
        VersionName::Given(place) => share_at(given, place as usize),
        VersionName::Made { task, out } => {
            let index = task.saturating_sub(first_number(tasks)) as usize;
            match tasks.get(index) {
                Some(done) => share_out(&done.end, out as usize),
                None => Ok(None),
            }
        }
    }
}

// The values of versions in order, where all are there.
pub(crate) fn share_values(
    alloc: Global,
    tasks: &[Done],
    given: &[Buffer],
    versions: &[VersionName],
) -> Result<Option<Vec<Buffer>>, NoMemory>
    ensures { IfOk result (λ v. option_map (λ values. values.items) v ≡ values_at tasks.now given.now versions.now) }
{
    let mut values = Vec::new(alloc);
    for version in versions {
        let Some(value) = share_value(tasks, given, *version)? else {
            return Ok(None);
        };
        values.push(value)?;
    }
    Ok(Some(values))
}

// The first task that has stopped.
pub(crate) fn first_stop(tasks: &[Done]) -> Option<Halt>
    ensures { option_map stopping result ≡ stop_in tasks.now }
{
    for done in tasks {
        if let Some(SharedEnd::Stopped { stop, line }) = &done.end {
            return Some(Halt {
                task: done.number,
                stop: *stop,
                line: *line,
            });
        }
    }
    None
}
