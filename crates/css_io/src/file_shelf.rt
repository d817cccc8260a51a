//! A shelf over the files of the system.
ghost use Rattle.std.specs.Prelude.{◌≡◌, ◌+◌, ◌<◌, ◌≤◌, ℕ, List, ◌++◌, vec_len, length, take, None, IfOk, IfErr, IfSome, IsErrOf};
ghost use Rattle.std.specs.Io.KnownBytes as known;
ghost use Rattle.css_io.specs.Outside.{Rose};
ghost use Rattle.css_io.specs.Calls.{one_more};

use crate::reading::new_piece;
use crate::retrying::{open_once, read_once};
use crate::shelf::{Shelf, ShelfFault};
use std::alloc::Global;
use std::io::Read;
use std::marker::Model;
use std::rt::Files;

/// A shelf over the files that a runtime has, by their paths. It tells no byte, and counts a fault at each file that can't
/// be opened or read, with one count for all names.
#[derive(Drop)]
pub struct FileShelf<R> {
    rt: R,
    faults: u64,
}

impl<R> Model for FileShelf<R> {
    ghost use Rattle.css_io.specs.Edge.{Counted};

    ghost Value = { Counted R };

    ghost view = { λ s. record { inner = s.rt; faults = s.faults } };
}

impl<R> FileShelf<R> {
    /// A shelf over the files of this runtime, with no fault counted.
    pub fn new(rt: R) -> FileShelf<R>
        ensures inner { result.inner ≡ rt }
        ensures faults { result.faults ≡ 0 }
    {
        FileShelf { rt, faults: 0 }
    }
}

impl<R: Files> Shelf for FileShelf<R> {
    ghost file = { λ _ _. None };

    ghost faults = { λ s _. s.faults };

    fn read_file(&mut self, alloc: Global, name: &str, limit: usize) -> Result<Vec<u8>, ShelfFault>
        // What each shelf says.
        ensures limit { IfOk result (λ bytes. length bytes.items ≤ limit) }
        ensures failed { IsErrOf result ShelfFault.Failed → Rose self.old.faults self.new.faults }
        ensures never_falls { (n : List ℕ) → self.old.faults ≤ self.new.faults }

        // When its count rises.
        ensures raised { IsErrOf result ShelfFault.Failed → self.new.faults ≡ one_more self.old.faults }
        ensures no_fault { ¬ IsErrOf result ShelfFault.Failed → self.new.faults ≡ self.old.faults }
    {
        match read_named(alloc, &self.rt, name, limit) {
            Ok(bytes) => Ok(bytes),
            Err(ShelfFault::NoMemory) => Err(ShelfFault::NoMemory),
            Err(ShelfFault::Failed) => {
                self.faults = self.faults.saturating_add(1);
                Err(ShelfFault::Failed)
            }
        }
    }
}

/// The first `limit` bytes of a file, or all where it has fewer. `Failed` where it can't be opened or read.
fn read_named<R: Files>(
    alloc: Global,
    rt: &R,
    name: &str,
    limit: usize,
) -> Result<Vec<u8>, ShelfFault>
    ensures { IfOk result (λ bytes. length bytes.items ≤ limit) }
{
    match open_once(rt, name) {
        Some(mut file) => read_up_to(alloc, &mut file, limit),
        None => Err(ShelfFault::Failed),
    }
}

/// The next `limit` bytes of a reader, or all that are left where it has fewer. It takes none past them. `Failed` where the
/// reader fails.
fn read_up_to<R: Read>(alloc: Global, reader: &mut R, limit: usize) -> Result<Vec<u8>, ShelfFault>
    ensures first { IfOk result (λ bytes. IfSome (R.remaining reader.old) (λ all. bytes.items ≡ take limit all)) }
    ensures limit { IfOk result (λ bytes. length bytes.items ≤ limit) }
{
    let mut piece = new_piece(alloc, limit)?;
    let mut bytes = Vec::new(alloc);
    loop {
        // At the limit this asks for no byte.
        let room = piece.len().min(limit - bytes.len());
        let count = append_next(reader, &mut piece[..room], &mut bytes)?;
        if count == 0 {
            return Ok(bytes);
        }
    }
}

/// Reads the next bytes into a part and appends them. Gives their number, which is 0 at the end. `Failed` where the reader
/// fails.
fn append_next<R: Read>(
    reader: &mut R,
    part: &mut [u8],
    bytes: &mut Vec<u8>,
) -> Result<usize, ShelfFault>
    ensures appends { IfOk result (λ n. bytes.new.items ≡ bytes.old.items ++ take n part.new) }
    ensures count { IfOk result (λ n. vec_len bytes.new ≡ vec_len bytes.old + n) }
    ensures within { IfOk result (λ n. n ≤ length part.old) }
    ensures passes { IfOk result (λ n.
        known.Consumes (R.remaining reader.old) (R.remaining reader.new) (take n part.new)) }
    ensures end { IfOk result (λ n. n ≡ 0 → 0 < length part.old → known.IsAtEnd (R.remaining reader.new)) }
{
    let Some(count) = read_once(reader, part) else {
        return Err(ShelfFault::Failed);
    };
    bytes.extend_from_slice(&part[..count])?;
    Ok(count)
}
