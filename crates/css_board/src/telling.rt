//! What the graph is told of tasks: those that a task needs, and its end.
ghost use Rattle.std.specs.Prelude.{◌≡◌, ◌↔◌, ◌∷◌, [], ℕ, true, Some, IsTrue, IfOk, OnOk};
ghost use Rattle.css_graph.specs.Tasks.{is_number_out, where_come};
ghost use Rattle.css_history.specs.Histories.{comes};
ghost use Rattle.css_board.specs.Cells.{IsFinish, IsEndBy};
ghost use Rattle.css_board.specs.Graphs.{producers_of, state_of, with_number};

use css_base::NoMemory;
use css_graph::Graph;
use css_history::Entry;
use css_record::VersionName;
use std::alloc::Global;

/// The different tasks that make these versions, in order of the versions.
pub(crate) fn producers_of(alloc: Global, versions: &[VersionName]) -> Result<Vec<u64>, NoMemory>
    ensures { IfOk result (λ v. v.items ≡ producers_of versions.now) }
{
    let mut producers = Vec::new(alloc);
    for version in versions {
        if let VersionName::Made { task, out: _ } = *version {
            put(&mut producers, task)?;
        }
    }
    Ok(producers)
}

/// Puts a number behind others, unless it is among them.
fn put(numbers: &mut Vec<u64>, number: u64) -> Result<(), NoMemory>
    ensures { OnOk result (numbers.new.items ≡ with_number numbers.old.items number) }
{
    if !numbers.contains(&number) {
        numbers.push(number)?;
    }
    Ok(())
}

/// Tells the graph to which end a task came that is out.
pub(crate) fn tell_end(graph: &mut Graph, number: u64, entry: &Entry)
    requires out { is_number_out graph.old.tasks number ≡ true }
    requires end { (w : ℕ) × IsEndBy w number entry.now }
    ensures { graph.new ≡ where_come graph.old (state_of (comes entry.now)) (number ∷ []) }
{
    if is_finish(entry) {
        graph.done(number)
    } else {
        graph.stopped(number)
    }
}

/// Whether the entry tells that a task is finished.
fn is_finish(entry: &Entry) -> bool
    ensures { IsTrue result ↔ IsFinish (Some entry.now) }
{
    matches!(
        entry,
        Entry::Finish {
            worker: _,
            number: _,
            outs: _,
        }
    )
}
