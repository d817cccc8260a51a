//! What the history says of the task of a number, without a walk.
ghost use Rattle.std.specs.Prelude.{◌≡◌, ◌<◌, ℕ, List, length, slice_get, All, Some, IfSome, IfNone};
ghost use Rattle.css_history.specs.Rules.{IsSubmit};
ghost use Rattle.css_board.specs.Drafts.{IsThere, HasPlace};
ghost use Rattle.css_task.specs.Alone.{Outs};
ghost use Rattle.css_history.specs.Histories.{Ended, standing, IsFinished};
ghost use Rattle.css_board.specs.Cells.{AreKept, IsFinishedCell, IsFinishedWith, IsFoundMade};

use crate::cell::{Cell, end_of, submit_of};
use css_base::Buffer;
use css_history::Entry;
use css_record::{TaskRecord, VersionName};
use css_traces::Items;

/// What the task of a number was finished with.
pub(crate) fn outs_of<'a>(
    history: &'a [Entry],
    cells: &[Cell],
    first: u64,
    number: u64,
) -> Option<&'a [Buffer]>
    requires { AreKept first history.now cells.now }
    ensures some { IfSome result (λ outs. standing number history.now ≡ Ended (Outs outs.now)) }
    ensures none { IfNone result (¬ IsFinished number history.now) }
{
    if number < first {
        return None;
    }
    let index = (number - first) as usize;
    if index >= cells.len() {
        return None;
    }
    let cell = cell_at(cells, index);
    outs_in(history, cell)
}

/// The cell at an index.
pub(crate) fn cell_at(cells: &[Cell], index: usize) -> Cell
    requires { index < length cells.now }
    ensures { slice_get cells.now index ≡ Some result }
{
    cells[index]
}

/// The record of a submitted task, and the buffers that were given with it.
pub(crate) fn task_of<'a>(
    history: &'a [Entry],
    cells: &[Cell],
    first: u64,
    number: u64,
) -> (&'a TaskRecord, &'a Items<Buffer>)
    requires kept { AreKept first history.now cells.now }
    requires place { HasPlace first history.now number }
    ensures submit { IsSubmit history.now number (record { rec = result.0.now; given = result.1.now }) }
    ensures there { All (IsThere result.1.now) result.0.now.inputs.items }
{
    let cell = cell_at(cells, (number - first) as usize);
    match submit_of(history, cell) {
        Some(task) => task,
        None => unreachable!(),
    }
}

/// What the task of a cell was finished with.
fn outs_in<'a>(history: &'a [Entry], cell: Cell) -> Option<&'a [Buffer]>
    ensures some { IfSome result (λ outs. IsFinishedWith history.now cell outs.now) }
    ensures none { IfNone result (¬ IsFinishedCell history.now cell) }
{
    match end_of(history, cell) {
        Some(
            Entry::Finish {
                worker: _,
                number: _,
                outs,
            },
        ) => Some(outs.as_slice()),
        _ => None,
    }
}

/// The value of a version, if it is there.
pub(crate) fn value_of<'a>(
    history: &'a [Entry],
    cells: &[Cell],
    first: u64,
    version: VersionName,
) -> Option<&'a Buffer>
    requires { AreKept first history.now cells.now }
    ensures some { IfSome result (λ b. IsFoundMade history.now version b.now) }
    ensures none { IfNone result ((bytes : List ℕ) → ¬ IsFoundMade history.now version bytes) }
{
    match version {
        VersionName::Made { task, out } => match outs_of(history, cells, first, task) {
            Some(outs) => outs.get(out as usize),
            None => None,
        },
        VersionName::Given(_) => None,
    }
}
