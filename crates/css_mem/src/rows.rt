//! Rows of windows in a slice.
ghost use Rattle.std.specs.Prelude.{◌≡◌, ◌<◌, ◌*◌, ◌^◌, length, IfOk};
ghost use Rattle.css_record.specs.Windows.{window, IsWindow};
ghost use Rattle.css_mem.specs.Slices.{RowsFit, rows_of, over_rows};

use css_record::Window;
use css_vm::overwrite;
use std::alloc::{AllocError, Global};

/// A copy of the bytes of a window's rows, in order, where the first row begins at an index.
pub(crate) fn copied_rows(
    alloc: Global,
    bytes: &[u8],
    first: usize,
    part: Window,
) -> Result<Vec<u8>, AllocError>
    requires is_window { IsWindow (window part) }
    requires fits { RowsFit (length bytes.now) part.rows first part.width part.stride }
    ensures { IfOk result (λ copied. copied.items ≡ rows_of bytes.now part.rows first part.width part.stride) }
{
    let mut copied = Vec::with_capacity(alloc, part.length() as usize)?;
    let mut at = first;
    for row in 0..part.rows {
        copied.extend_from_slice(&bytes[at..at + part.width as usize])?;
        at += part.stride as usize;
    }
    Ok(copied)
}

/// Writes bytes into a window's rows, in order, where the first row begins at an index.
pub(crate) fn write_rows(bytes: &mut [u8], first: usize, part: Window, new: &[u8])
    requires fits { RowsFit (length bytes.old) part.rows first part.width part.stride }
    requires short { length bytes.old < 2 ^ 32 }
    requires whole { length new.now ≡ part.rows * part.width }
    ensures { bytes.new ≡ over_rows bytes.old part.rows first part.width part.stride new.now }
{
    let width = part.width as usize;
    let mut at = first;
    let mut done = 0;
    for i in 0..part.rows {
        overwrite(bytes, at, &new[done..done + width]);
        done += width;
        at += part.stride as usize;
    }
}
