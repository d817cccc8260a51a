//! A shelf that never fails.
ghost use Rattle.std.specs.Prelude.{◌≡◌, Some, take, length, ◌≤◌, IfOk};

use crate::shelf::{Shelf, ShelfFault, first_bytes};
use std::alloc::Global;
use std::marker::Model;

/// A shelf that gives one file for every name, and never fails.
#[derive(Drop)]
pub struct SureShelf {
    file: Vec<u8>,
}

impl Model for SureShelf {
    ghost use Rattle.std.specs.Prelude.{ℕ, List};

    ghost Value = { List ℕ };

    ghost view = { λ s. s.file.items };
}

impl SureShelf {
    /// A shelf that gives this file for every name.
    pub fn new(file: Vec<u8>) -> SureShelf
        ensures { result ≡ file.items }
    {
        SureShelf { file }
    }
}

impl Shelf for SureShelf {
    ghost file = { λ s _. Some s };

    ghost faults = { λ _ _. 0 };

    fn read_file(
        &mut self,
        alloc: Global,
        _name: &str,
        limit: usize,
    ) -> Result<Vec<u8>, ShelfFault> {
        first_bytes(alloc, self.file.as_slice(), limit)
    }
}
