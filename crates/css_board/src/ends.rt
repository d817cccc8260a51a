//! Whether a task may be said to have ended.
ghost use Rattle.std.specs.Prelude.{◌≡◌, ◌↔◌, ◌<◌, [], All, IsTrue, Some, slice_get};
ghost use Rattle.css_yard.specs.Values.{Submit as Task};
ghost use Rattle.css_history.specs.Rules.{IsReady, IsSubmit, AreReady};
ghost use Rattle.css_board.specs.Cells.{AreKept};
ghost use Rattle.css_board.specs.Drafts.{HasPlace};

use crate::cell::Cell;
use crate::lookup::{outs_of, task_of};
use css_history::Entry;
use css_record::VersionName;

/// Whether a version is given, or made by a task that is finished.
fn is_ready(history: &[Entry], cells: &[Cell], first: u64, version: VersionName) -> bool
    requires { AreKept first history.now cells.now }
    ensures { IsTrue result ↔ IsReady history.now [] version }
{
    match version {
        VersionName::Given(_) => true,
        VersionName::Made { task, out: _ } => outs_of(history, cells, first, task).is_some(),
    }
}

/// Whether each of these versions is.
fn are_ready(history: &[Entry], cells: &[Cell], first: u64, versions: &[VersionName]) -> bool
    requires { AreKept first history.now cells.now }
    ensures { IsTrue result ↔ All (IsReady history.now []) versions.now }
{
    for version in versions {
        if !is_ready(history, cells, first, *version) {
            return false;
        }
    }
    true
}

/// Whether the made inputs of a submitted task are finished.
pub(crate) fn has_ready_inputs(history: &[Entry], cells: &[Cell], first: u64, number: u64) -> bool
    requires kept { AreKept first history.now cells.now }
    requires place { HasPlace first history.now number }
    ensures { (s : Task) × IsSubmit history.now number s × (IsTrue result ↔ AreReady history.now [] s.rec) }
{
    let (rec, _) = task_of(history, cells, first, number);
    are_ready(history, cells, first, rec.inputs.as_slice())
}
