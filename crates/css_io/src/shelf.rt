//! Shelves of files.
ghost use Rattle.std.specs.Prelude.{◌≡◌, ◌≤◌, ℕ, List, Option, length, take, IfOk, IfErr, IfSome, IsErrOf};
ghost use Rattle.css_io.specs.Outside.{Rose};

use std::alloc::{AllocError, Global};

/// Why a file wasn't read.
#[derive(Clone, Copy, PartialEq, Eq, Debug)]
pub enum ShelfFault {
    /// There is no such file, or it can't be read: the count of its name rose.
    Failed,
    /// There was no memory.
    NoMemory,
}

impl From<AllocError> for ShelfFault {
    ghost use Rattle.css_io.specs.declared.shelf.ShelfFault.TheVariants.{NoMemory};

    ghost from_gives = { λ _ fault. fault ≡ NoMemory };

    fn from(_error: AllocError) -> ShelfFault {
        ShelfFault::NoMemory
    }
}

/// Where files are read from, by name.
pub trait Shelf {
    /// The bytes of the file of each name, where the shelf tells them.
    ghost file: { Self → List ℕ → Option (List ℕ) };

    /// The count of faults of each name.
    ghost faults: { Self → List ℕ → ℕ };

    /// The first `limit` bytes of the file of this name, or all where it has fewer.
    fn read_file(&mut self, alloc: Global, name: &str, limit: usize) -> Result<Vec<u8>, ShelfFault>
        ensures ok { IfOk result (λ bytes. IfSome (file self.old name.now) (λ all. bytes.items ≡ take limit all)) }
        ensures limit { IfOk result (λ bytes. length bytes.items ≤ limit) }
        ensures failed { IsErrOf result ShelfFault.Failed → Rose (faults self.old name.now) (faults self.new name.now) }
        ensures same_files { (n : List ℕ) → file self.new n ≡ file self.old n }
        ensures never_falls { (n : List ℕ) → faults self.old n ≤ faults self.new n };
}

/// The first `limit` of these bytes, or all where there are fewer. `NoMemory` where there is none for them.
pub(crate) fn first_bytes(alloc: Global, all: &[u8], limit: usize) -> Result<Vec<u8>, ShelfFault>
    ensures first { IfOk result (λ bytes. bytes.items ≡ take limit all.now) }
    ensures limit { IfOk result (λ bytes. length bytes.items ≤ limit) }
    ensures only { IfErr result (λ fault. fault ≡ ShelfFault.NoMemory) }
{
    let count = all.len().min(limit);
    Ok(Vec::from_slice(alloc, &all[..count])?)
}
