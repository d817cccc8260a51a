//! The line of the numbers of some calls.
ghost use Rattle.std.specs.Prelude.{◌≡◌, IfOk, sum_by, count_by, slice_get, string_bytes};
ghost use Rattle.css_report.specs.Calls.{shown, parts_of};
ghost use Rattle.css_report.specs.Stats.{IsStatsLine, bytes_read, bytes_written, pieces_moved, sums_words};
ghost use Rattle.css_vm.specs.Code.{code_of};

use crate::calls::CallList;
use crate::counts::{Counts, plus};
use crate::depth::depth_of;
use css_base::NoMemory;
use css_record::Call;
use css_vm::{ArgShape, Code};
use std::alloc::Global;

/// The line of the calls' numbers. The only error is want of memory, which is answered also where a sum passes 128 bits: no memory has
/// so many calls.
pub fn stats_line(alloc: Global, value: &CallList<'_>) -> Result<Vec<u8>, NoMemory>
    ensures { IfOk result (λ line. IsStatsLine (shown value.now) line.items) }
{
    let tasks = value.calls.len();
    let counts = counts_of(value)?;
    let sums = sums_text(alloc, counts)?;
    let renamed = renamed_of(value.calls)?;
    let depth = depth_of(alloc, value.calls)?;
    let line = format!(in alloc; "stats tasks {tasks} {sums} renamed {renamed} depth {depth}\n")?;
    Ok(line.into_bytes())
}

/// What is counted of windows, in words.
fn sums_text(alloc: Global, counts: Counts) -> Result<String, NoMemory>
    ensures { IfOk result (λ text. string_bytes text ≡ sums_words counts.reads counts.writes counts.pieces) }
{
    let (reads, writes, pieces) = (counts.reads, counts.writes, counts.pieces);
    Ok(format!(in alloc; "reads {reads} writes {writes} pieces {pieces}")?)
}

/// What is counted of all windows.
fn counts_of(value: &CallList<'_>) -> Result<Counts, NoMemory>
    ensures reads { IfOk result (λ counts. counts.reads ≡ sum_by (λ c. sum_by bytes_read c.uses) (shown value.now)) }
    ensures writes { IfOk result (λ counts. counts.writes ≡ sum_by (λ c. sum_by bytes_written c.uses) (shown value.now)) }
    ensures pieces { IfOk result (λ counts. counts.pieces ≡ sum_by (λ c. sum_by pieces_moved c.uses) (shown value.now)) }
{
    let mut counts = Counts::NONE;
    for call in value.calls {
        let parts = parts_of(value.code, call.rec.function);
        counts = counts.with_task(parts, &call.rec.windows)?;
    }
    Ok(counts)
}

/// What a function is given for its parameters where it is a task.
fn parts_of(code: &Code, function: u32) -> &[ArgShape]
    ensures { result.now ≡ parts_of (slice_get (code_of code.now).functions function) }
{
    let Some(function) = code.functions.get(function as usize) else {
        return &[];
    };
    match &function.task {
        Some(shape) => &shape.args,
        None => &[],
    }
}

/// How many windows are renamed.
fn renamed_of(calls: &[Call]) -> Result<u128, NoMemory>
    ensures { IfOk result (λ total. total ≡ sum_by (λ c. count_by (λ is. is) c.renamed.items) calls.now) }
{
    let mut total: u128 = 0;
    for call in calls {
        total = plus(total, u128::from(count_of(&call.renamed)))?;
    }
    Ok(total)
}

/// How many of these are so.
fn count_of(answers: &[bool]) -> u64
    ensures { result ≡ count_by (λ is. is) answers.now }
{
    let mut count: u64 = 0;
    for is in answers {
        if *is {
            count += 1;
        }
    }
    count
}
