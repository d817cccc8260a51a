//! The jobs of a bundle.
ghost use Rattle.std.specs.Prelude.{◌≡◌, ◌<◌, ◌++◌, All, IfOk, length, slice_get, Some};
ghost use Rattle.css_board.specs.declared.post.Post.{Post as Desk};
ghost use Rattle.css_board.specs.Cells.{AreKept};
ghost use Rattle.css_board.specs.Drafts.{IsThere, HasPlace, IsInputDraft, AreInputDrafts, IsDraft, AreDrafts};

use crate::cell::Cell;
use crate::job::{Job, JobInput, copy_record};
use crate::lookup::{task_of, value_of};
use crate::post::{Post, held_with};
use css_base::{Buffer, NoMemory};
use css_history::Entry;
use css_record::VersionName;
use std::alloc::Global;

/// An input: the value of a version, if it is there.
fn input_of(
    history: &[Entry],
    cells: &[Cell],
    first: u64,
    given: &[Buffer],
    version: VersionName,
) -> Result<JobInput, NoMemory>
    requires kept { AreKept first history.now cells.now }
    requires there { IsThere given.now version }
    ensures { IfOk result (λ input. IsInputDraft history.now given.now version input) }
{
    match version {
        VersionName::Given(place) => Ok(JobInput::Ready(given[place as usize].share()?)),
        VersionName::Made { task, out } => match value_of(history, cells, first, version) {
            Some(value) => Ok(JobInput::Ready(value.share()?)),
            None => Ok(JobInput::Chained { task, out }),
        },
    }
}

/// The inputs of these versions, in order.
fn inputs_of(
    alloc: Global,
    history: &[Entry],
    cells: &[Cell],
    first: u64,
    given: &[Buffer],
    versions: &[VersionName],
) -> Result<Vec<JobInput>, NoMemory>
    requires kept { AreKept first history.now cells.now }
    requires there { All (IsThere given.now) versions.now }
    ensures { IfOk result (λ v. AreInputDrafts history.now given.now versions.now v.items) }
{
    let mut inputs = Vec::with_capacity(alloc, versions.len())?;
    for version in versions {
        let input = input_of(history, cells, first, given, *version)?;
        inputs.push(input)?;
    }
    Ok(inputs)
}

/// The job of a submitted task whose given buffers are there.
fn job_of(
    alloc: Global,
    history: &[Entry],
    cells: &[Cell],
    first: u64,
    number: u64,
) -> Result<Job, NoMemory>
    requires kept { AreKept first history.now cells.now }
    requires place { HasPlace first history.now number }
    ensures { IfOk result (λ job. IsDraft history.now number job) }
{
    let (rec, given) = task_of(history, cells, first, number);
    let inputs = inputs_of(
        alloc,
        history,
        cells,
        first,
        given.as_slice(),
        rec.inputs.as_slice(),
    )?;
    let rec = copy_record(alloc, rec)?;
    Ok(Job { rec, inputs })
}

/// The jobs of submitted tasks whose given buffers are there, in order.
fn jobs_of(
    alloc: Global,
    history: &[Entry],
    cells: &[Cell],
    first: u64,
    numbers: &[u64],
) -> Result<Vec<Job>, NoMemory>
    requires kept { AreKept first history.now cells.now }
    requires places { All (HasPlace first history.now) numbers.now }
    ensures { IfOk result (λ v. AreDrafts history.now numbers.now v.items) }
{
    let mut jobs = Vec::with_capacity(alloc, numbers.len())?;
    for number in numbers {
        let job = job_of(alloc, history, cells, first, *number)?;
        jobs.push(job)?;
    }
    Ok(jobs)
}

/// What a worker holds once it has taken these tasks too, and their jobs.
pub(crate) fn readied(
    alloc: Global,
    history: &[Entry],
    cells: &[Cell],
    first: u64,
    posts: &[Post],
    worker: u32,
    numbers: &[u64],
) -> Result<(Vec<u64>, Vec<Job>), NoMemory>
    requires kept { AreKept first history.now cells.now }
    requires places { All (HasPlace first history.now) numbers.now }
    requires worker { worker < length posts.now }
    ensures held { IfOk result (λ r. (p : Desk) × (slice_get posts.now worker ≡ Some p) × (r.0.items ≡ p.held.items ++ numbers.now)) }
    ensures drafts { IfOk result (λ r. AreDrafts history.now numbers.now r.1.items) }
{
    let held = held_with(alloc, posts, worker, numbers)?;
    let jobs = jobs_of(alloc, history, cells, first, numbers)?;
    Ok((held, jobs))
}
