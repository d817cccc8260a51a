//! Reading a listing.
ghost use Rattle.std.specs.Prelude.{◌≡◌, ◌==◌, ◌≤◌, ◌<◌, ◌+◌, IfOk, IfErr, position, length, take, drop};
ghost use Rattle.css_isa.specs.declared.code.Code as seen;
ghost use Rattle.css_listing.specs.Lines.{listing, Fits};
ghost use Rattle.css_listing.specs.Faults.{IsFault, IsRead};
ghost use Rattle.css_listing.specs.Reading.{Gives, after_line, Stops, EndsWith, Reads};

use crate::draft::{Draft, finished, next};
use crate::fault::{ListingFault, ReadError};
use crate::line::line_of;
use css_isa::Code;
use std::alloc::Global;

/// The code whose listing this is. The errors are a text that is no listing, with its first line that can't follow those before it,
/// and want of memory.
pub fn read_listing(alloc: Global, text: &[u8]) -> Result<Code, ListingFault>
    // What is read has the text.
    ensures found { IfOk result (λ c. Fits c × (text.now ≡ listing c)) }
    // A code's listing is read as that code, unless memory runs out.
    ensures only { (c : seen.Code) → Fits c → text.now ≡ listing c → IsRead result c }
    ensures fault { IfErr result (λ fault. IsFault text.now fault) }
{
    read_lines(alloc, text)
}

/// Reads line by line, up to one that can't follow.
fn read_lines(alloc: Global, text: &[u8]) -> Result<Code, ListingFault>
    ensures { Reads text.now result }
{
    let mut draft = Draft::Start;
    let mut rest = text;
    let mut line: u64 = 1;
    while let Some(end) = newline_at(rest) {
        let bytes = line_at(rest, end);
        draft = match after_line(alloc, draft, bytes) {
            Ok(more) => more,
            Err(error) => return Err(fault_in(error, line)),
        };
        rest = behind(rest, end);
        line += 1;
    }
    ended(alloc, draft, rest, line)
}

/// The place of the first newline.
fn newline_at(bytes: &[u8]) -> Option<usize>
    ensures { result ≡ position (λ b. b == 10) bytes.now }
{
    bytes.iter().position(|b| *b == b'\n')
}

/// The bytes in front of a newline at this place.
fn line_at(bytes: &[u8], end: usize) -> &[u8]
    requires { end ≤ length bytes.now }
    ensures { result.now ≡ take end bytes.now }
{
    let (line, _) = bytes.split_at(end);
    line
}

/// The bytes behind a newline at this place.
fn behind(bytes: &[u8], end: usize) -> &[u8]
    requires { end < length bytes.now }
    ensures { result.now ≡ drop (end + 1) bytes.now }
{
    let (_, others) = bytes.split_at(end + 1);
    others
}

/// What is read with one more line, without the newline that ends it.
fn after_line(alloc: Global, draft: Draft, bytes: &[u8]) -> Result<Draft, ReadError>
    ensures { Gives result (after_line draft bytes.now) }
{
    let line = line_of(alloc, bytes)?;
    next(alloc, draft, line)
}

/// Why the text isn't read, where this line isn't.
fn fault_in(error: ReadError, line: u64) -> ListingFault
    ensures { Stops error line result }
{
    match error {
        ReadError::Refused => ListingFault::Bad(line),
        ReadError::NoMemory => ListingFault::NoMemory,
    }
}

/// The code that is read, where there is no more line, and nothing behind the last one.
fn ended(alloc: Global, draft: Draft, rest: &[u8], line: u64) -> Result<Code, ListingFault>
    ensures { EndsWith draft rest.now line result }
{
    if !rest.is_empty() {
        return Err(ListingFault::Bad(line));
    }
    match finished(alloc, draft) {
        Ok(code) => Ok(code),
        Err(error) => Err(fault_in(error, line)),
    }
}
