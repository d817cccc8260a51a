//! Why a text isn't read as a listing.
ghost use Rattle.std.specs.Prelude.{◌≡◌};
ghost use Rattle.css_listing.specs.declared.fault.ReadError.TheVariants.{NoMemory};

use css_base;
use std::alloc::{AllocError, AllocFailed};

/// Why a text isn't read as a listing.
#[derive(Clone, Copy, PartialEq, Eq, Debug)]
pub enum ListingFault {
    /// It is no code's listing. This is its first line that can't follow those before it, counted from 1: one that isn't ended by a
    /// newline can't, and where the text ends too early it is the line behind the last one.
    Bad(u64),
    /// There was no memory.
    NoMemory,
}

/// Why a line isn't read.
#[derive(Clone, Copy, PartialEq, Eq, Debug)]
pub(crate) enum ReadError {
    /// It can't stand there.
    Refused,
    NoMemory,
}

impl From<css_base::NoMemory> for ReadError {
    ghost from_gives = { λ _ e. e ≡ NoMemory };

    fn from(_error: css_base::NoMemory) -> ReadError {
        ReadError::NoMemory
    }
}

impl From<AllocError> for ReadError {
    ghost from_gives = { λ _ e. e ≡ NoMemory };

    fn from(_error: AllocError) -> ReadError {
        ReadError::NoMemory
    }
}

impl<T: Drop> From<AllocFailed<T>> for ReadError {
    ghost from_gives = { λ _ e. e ≡ NoMemory };

    fn from(_error: AllocFailed<T>) -> ReadError {
        ReadError::NoMemory
    }
}
