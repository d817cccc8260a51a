//! What a trace shows of a board.
ghost use Rattle.std.specs.Prelude.{◌≡◌, IfOk, map, All};
ghost use Rattle.css_board.specs.Lines.{line_of, IsNamed};

use css_base::NoMemory;
use css_history::Entry;
use css_traces::{BoardLine, Items, Name};
use std::alloc::Global;

/// What a trace shows of entries, in order, by the names of the functions.
pub(crate) fn lines_of(
    alloc: Global,
    names: &[Name],
    history: &[Entry],
) -> Result<Vec<BoardLine>, NoMemory>
    requires { All (IsNamed names.now) history.now }
    ensures { IfOk result (λ v. v.items ≡ map (line_of names.now) history.now) }
{
    let mut lines = Vec::new(alloc);
    for entry in history {
        lines.push(line_of(alloc, names, entry)?)?;
    }
    Ok(lines)
}

/// What a trace shows of an entry.
fn line_of(alloc: Global, names: &[Name], entry: &Entry) -> Result<BoardLine, NoMemory>
    requires { IsNamed names.now entry.now }
    ensures { IfOk result (λ line. line ≡ line_of names.now entry.now) }
{
    match entry {
        Entry::Submit { rec, given: _ } => {
            let name = &names[rec.function as usize];
            let bytes = Vec::from_slice(alloc, name.as_slice())?;
            Ok(BoardLine::Submit {
                number: rec.number,
                name: Name::new(bytes),
            })
        }
        Entry::Take { worker, numbers } => Ok(BoardLine::Take {
            worker: *worker,
            numbers: copy_of(alloc, numbers)?,
        }),
        Entry::Finish {
            worker,
            number,
            outs: _,
        } => Ok(BoardLine::Finish {
            worker: *worker,
            number: *number,
        }),
        Entry::Stop {
            worker,
            number,
            stop,
            line,
        } => Ok(BoardLine::Stop {
            worker: *worker,
            number: *number,
            line: *line,
            stop: *stop,
        }),
        Entry::Back { worker, numbers } => Ok(BoardLine::Back {
            worker: *worker,
            numbers: copy_of(alloc, numbers)?,
        }),
        Entry::Starved { worker } => Ok(BoardLine::Starved { worker: *worker }),
        Entry::Close => Ok(BoardLine::Close),
    }
}

/// A copy of numbers.
fn copy_of(alloc: Global, numbers: &Items<u64>) -> Result<Items<u64>, NoMemory>
    ensures { IfOk result (λ copy. copy ≡ numbers.now) }
{
    let copy = Vec::from_slice(alloc, numbers.as_slice())?;
    Ok(Items::new(copy))
}
