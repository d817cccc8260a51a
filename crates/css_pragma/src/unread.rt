//! Why something isn't read.

/// Why something isn't read.
#[derive(Clone, Copy, PartialEq, Eq, Debug)]
pub(crate) enum Unread {
    /// Nothing is spelled.
    NotSpelled,
    /// There was no memory.
    NoMemory,
}
