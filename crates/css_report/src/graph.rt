//! The text of the dependence graph.
ghost use Rattle.std.specs.Prelude.{◌≡◌, [], ◌++◌, IfOk, OnOk, flat_map, slice_index_or};
ghost use Rattle.css_report.specs.Calls.{shown};
ghost use Rattle.css_report.specs.Graphs.{graph_text, task_line, edge_line};

use crate::calls::CallList;
use css_base::NoMemory;
use css_record::Call;
use css_traces::Name;
use std::alloc::Global;

/// The text of the calls' dependence graph: a line for each task, and one for each task that made what it reads. The only error is
/// want of memory.
pub fn graph_text(alloc: Global, value: &CallList<'_>) -> Result<Vec<u8>, NoMemory>
    ensures { IfOk result (λ text. text.items ≡ graph_text (shown value.now)) }
{
    let mut text = Vec::new(alloc);
    for call in value.calls {
        put_task(
            alloc,
            &mut text,
            name_of(value.names, call.rec.function),
            call,
        )?;
        put_edges(alloc, &mut text, call.rec.number, &call.producers)?;
    }
    Ok(text)
}

/// The name of a function.
fn name_of(names: &[Name], function: u32) -> &[u8]
    ensures { result.now ≡ slice_index_or names.now function [] }
{
    match names.get(function as usize) {
        Some(name) => name.as_slice(),
        None => &[],
    }
}

/// Writes the line of a task.
fn put_task(alloc: Global, text: &mut Vec<u8>, name: &[u8], call: &Call) -> Result<(), NoMemory>
    ensures { OnOk result (text.new.items ≡ text.old.items ++ task_line call.now.rec.number name.now call.now.rec.line) }
{
    let number = call.rec.number;
    let line = call.rec.line.number();
    let before = format!(in alloc; "task {number} ")?;
    let behind = format!(in alloc; " line {line}\n")?;
    text.extend_from_slice(before.as_bytes())?;
    text.extend_from_slice(name)?;
    text.extend_from_slice(behind.as_bytes())?;
    Ok(())
}

/// Writes the lines of the edges to a task.
fn put_edges(
    alloc: Global,
    text: &mut Vec<u8>,
    number: u64,
    producers: &[u64],
) -> Result<(), NoMemory>
    ensures { OnOk result (text.new.items ≡ text.old.items ++ flat_map (edge_line number) producers.now) }
{
    for producer in producers {
        let line = format!(in alloc; "edge {producer} {number}\n")?;
        text.extend_from_slice(line.as_bytes())?;
    }
    Ok(())
}
