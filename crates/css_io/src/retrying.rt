//! Calls of the standard library, tried again where they were interrupted.
ghost use Rattle.std.specs.Prelude.{◌≡◌, ◌<◌, ◌≤◌, length, take, IfSome, IfNone};
ghost use Rattle.std.specs.Io.KnownBytes as known;

use std::fs;
use std::io::{ErrorKind, Read, Write};
use std::rt::Files;

/// Opens a file to be read. `None` where it can't be opened.
pub(crate) fn open_once<R: Files>(rt: &R, name: &str) -> Option<R::File> {
    for _ in 0..u64::MAX {
        match fs::open(rt, name) {
            Ok(file) => return Some(file),
            Err(error) if error.kind() == ErrorKind::Interrupted => {}
            Err(_) => return None,
        }
    }
    None
}

/// One read. `None` where the reader fails.
pub(crate) fn read_once<R: Read>(reader: &mut R, part: &mut [u8]) -> Option<usize>
    ensures within { IfSome result (λ n. n ≤ length part.new) }
    ensures passes { IfSome result (λ n.
        known.Consumes (R.remaining reader.old) (R.remaining reader.new) (take n part.new)) }
    ensures end { IfSome result (λ n. n ≡ 0 → 0 < length part.old → known.IsAtEnd (R.remaining reader.new)) }
    ensures passes_none { IfNone result (known.Keeps (R.remaining reader.old) (R.remaining reader.new)) }
{
    for _ in 0..u64::MAX {
        match reader.read(part) {
            Ok(count) => return Some(count),
            Err(error) if error.kind() == ErrorKind::Interrupted => {}
            Err(_) => return None,
        }
    }
    None
}

/// One write. `None` where the writer fails or takes nothing.
pub(crate) fn write_once<W: Write>(writer: &mut W, piece: &[u8]) -> Option<usize>
    ensures count { IfSome result (λ n. (1 ≤ n) × (n ≤ length piece.now)) }
    ensures passes { IfSome result (λ n.
        known.Appends (W.contents writer.old) (W.contents writer.new) (take n piece.now)) }
    ensures passes_none { IfNone result (known.Keeps (W.contents writer.old) (W.contents writer.new)) }
{
    for _ in 0..u64::MAX {
        match writer.write(piece) {
            Ok(0) => return None,
            Ok(count) => return Some(count),
            Err(error) if error.kind() == ErrorKind::Interrupted => {}
            Err(_) => return None,
        }
    }
    None
}
