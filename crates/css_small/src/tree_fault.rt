//! Why a tree gives no program.

/// Why a part of a tree gives no part of a program.
#[derive(Clone, Copy, PartialEq, Eq, Debug)]
pub(crate) enum TreeFault {
    /// It isn't of the small language.
    NotSmall,
    /// There was no memory.
    NoMemory,
}
