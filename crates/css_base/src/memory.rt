//! Want of memory.
ghost use Rattle.css_base.specs.declared.memory.NoMemory.{NoMemory};

use std::alloc::{AllocError, AllocFailed};

/// There was no memory for what a call had to store.
#[derive(Clone, Copy, PartialEq, Eq, Debug)]
pub struct NoMemory;

impl From<AllocError> for NoMemory {
    fn from(_error: AllocError) -> NoMemory {
        NoMemory
    }
}

impl<T: Drop> From<AllocFailed<T>> for NoMemory {
    fn from(_error: AllocFailed<T>) -> NoMemory {
        NoMemory
    }
}
