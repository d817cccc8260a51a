//! What the board has at hand of each task.
ghost use Rattle.std.specs.Prelude.{◌≡◌, ◌≢◌, ◌≤◌, ◌<◌, ℕ, List, length, slice_get, Some, None, IfSome, IfNone, IsTrue, ◌↔◌};
ghost use Rattle.css_base.specs.declared.ending.Stop.{Stop as Cause};
ghost use Rattle.css_record.specs.declared.task_record.TaskRecord.{TaskRecord as Told};
ghost use Rattle.css_history.specs.declared.entry.Entry.TheVariants as entries;
ghost use Rattle.css_board.specs.Cells.{with_end, IsFinishedCell, IsStopOf, end_at};

use css_base::{Buffer, Line, Stop};
use css_history::Entry;
use css_record::TaskRecord;
use css_traces::Items;

/// The places of the history at which a task was submitted, and at which it came to its end.
#[derive(Clone, Copy)]
pub(crate) struct Cell {
    pub submit: usize,
    pub end: Option<usize>,
}

/// The entry at which a task came to its end.
pub(crate) fn end_of<'a>(history: &'a [Entry], cell: Cell) -> Option<&'a Entry>
    ensures some { IfSome result (λ e. end_at history.now cell ≡ Some e.now) }
    ensures none { IfNone result (end_at history.now cell ≡ None) }
{
    match cell.end {
        Some(place) => history.get(place),
        None => None,
    }
}

/// The record of a task, and the buffers that were given with it.
pub(crate) fn submit_of<'a>(
    history: &'a [Entry],
    cell: Cell,
) -> Option<(&'a TaskRecord, &'a Items<Buffer>)>
    ensures some { IfSome result (λ r. slice_get history.now cell.submit ≡ Some (entries.Submit r.0.now r.1.now)) }
    ensures none { IfNone result ((rec : Told) (given : List (List ℕ)) → slice_get history.now cell.submit ≢ Some (entries.Submit rec given)) }
{
    match history.get(cell.submit) {
        Some(Entry::Submit { rec, given }) => Some((rec, given)),
        _ => None,
    }
}

/// Whether a task is finished.
pub(crate) fn is_finished(history: &[Entry], cell: Cell) -> bool
    ensures { IsTrue result ↔ IsFinishedCell history.now cell }
{
    match end_of(history, cell) {
        Some(
            Entry::Finish {
                worker: _,
                number: _,
                outs: _,
            },
        ) => true,
        _ => false,
    }
}

/// Which task stopped, and how, if it did.
pub(crate) fn stop_of(history: &[Entry], cell: Cell) -> Option<(u64, Stop, Line)>
    ensures some { IfSome result (λ r. IsStopOf history.now cell r.0 r.1 r.2) }
    ensures none { IfNone result ((n : ℕ) (stop : Cause) (line : ℕ) → ¬ IsStopOf history.now cell n stop line) }
{
    match end_of(history, cell) {
        Some(
            Entry::Stop {
                worker: _,
                number,
                stop,
                line,
            },
        ) => Some((*number, *stop, *line)),
        _ => None,
    }
}

/// The first task from a place on that isn't finished, or how many there are.
pub(crate) fn front_from(history: &[Entry], cells: &[Cell], from: usize) -> usize
    requires { from ≤ length cells.now }
    ensures from { from ≤ result }
    ensures within { result ≤ length cells.now }
    ensures finished { (k : ℕ) (c : Cell) → from ≤ k → k < result → slice_get cells.now k ≡ Some c → IsFinishedCell history.now c }
    ensures front { (c : Cell) → slice_get cells.now result ≡ Some c → ¬ IsFinishedCell history.now c }
{
    for k in from..cells.len() {
        if !is_finished(history, cells[k]) {
            return k;
        }
    }
    cells.len()
}

/// Says where a task came to its end.
pub(crate) fn set_end(cells: &mut Vec<Cell>, index: usize, place: usize)
    requires { index < length cells.old.items }
    ensures { cells.new.items ≡ with_end cells.old.items index place }
{
    let cell = cells[index];
    cells[index] = Cell {
        submit: cell.submit,
        end: Some(place),
    };
}
