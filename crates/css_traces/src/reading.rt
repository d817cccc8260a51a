//! Reading a trace.
ghost use Rattle.std.specs.Prelude.{◌≡◌, ◌==◌, ◌≤◌, ◌<◌, ◌+◌, IfOk, IfErr, position, length, take, drop};
ghost use Rattle.css_traces.specs.declared.traces.Traces.{Traces};
ghost use Rattle.css_traces.specs.Lines.{trace_text, Fits};
ghost use Rattle.css_traces.specs.Faults.{IsFault, IsRead};
ghost use Rattle.css_traces.specs.Reading.{Gives, after_line, Stops, EndsWith, Reads};

use crate::draft::{Draft, next};
use crate::fault::{ReadError, TraceFault};
use crate::line::line_of;
use crate::traces::Traces;
use std::alloc::Global;

/// The trace whose text this is. The errors are a text that is no trace's, with its first line that can't follow those before it, and
/// want of memory.
pub fn read_trace(alloc: Global, text: &[u8]) -> Result<Traces, TraceFault>
    // What is read has the text.
    ensures found { IfOk result (λ t. Fits t × (text.now ≡ trace_text t)) }
    // A trace's text is read as that trace, unless memory runs out.
    ensures only { (t : Traces) → Fits t → text.now ≡ trace_text t → IsRead result t }
    ensures fault { IfErr result (λ fault. IsFault text.now fault) }
{
    read_lines(alloc, text)
}

/// Reads line by line, up to one that can't follow.
fn read_lines(alloc: Global, text: &[u8]) -> Result<Traces, TraceFault>
    ensures { Reads text.now result }
{
    let mut draft = Draft::Start;
    let mut rest = text;
    let mut line: u64 = 1;
    while let Some(end) = newline_at(rest) {
        let bytes = line_at(rest, end);
        draft = match after_line(alloc, draft, bytes) {
            Ok(more) => more,
            Err(error) => return Err(fault_in(error, line)),
        };
        rest = behind(rest, end);
        line += 1;
    }
    ended(draft, rest, line)
}

/// The place of the first newline.
fn newline_at(bytes: &[u8]) -> Option<usize>
    ensures { result ≡ position (λ b. b == 10) bytes.now }
{
    bytes.iter().position(|b| *b == b'\n')
}

/// The bytes in front of a newline at this place.
fn line_at(bytes: &[u8], end: usize) -> &[u8]
    requires { end ≤ length bytes.now }
    ensures { result.now ≡ take end bytes.now }
{
    let (line, _) = bytes.split_at(end);
    line
}

/// The bytes behind a newline at this place.
fn behind(bytes: &[u8], end: usize) -> &[u8]
    requires { end < length bytes.now }
    ensures { result.now ≡ drop (end + 1) bytes.now }
{
    let (_, others) = bytes.split_at(end + 1);
    others
}

/// What is read with one more line, without the newline that ends it.
fn after_line(alloc: Global, draft: Draft, bytes: &[u8]) -> Result<Draft, ReadError>
    ensures { Gives result (after_line draft bytes.now) }
{
    let line = line_of(alloc, bytes)?;
    next(alloc, draft, line)
}

/// Why the text isn't read, where this line isn't.
fn fault_in(error: ReadError, line: u64) -> TraceFault
    ensures { Stops error line result }
{
    match error {
        ReadError::Refused => TraceFault::Bad(line),
        ReadError::NoMemory => TraceFault::NoMemory,
    }
}

/// The trace that is read, where there is no more line, and nothing behind the last one.
fn ended(draft: Draft, rest: &[u8], line: u64) -> Result<Traces, TraceFault>
    ensures { EndsWith draft rest.now line result }
{
    if !rest.is_empty() {
        return Err(TraceFault::Bad(line));
    }
    match draft {
        Draft::Ended { generations } => Ok(Traces { generations }),
        _ => Err(TraceFault::Bad(line)),
    }
}
