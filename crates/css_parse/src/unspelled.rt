//! Why a pass over the tokens has no answer.

/// Why something isn't read.
#[derive(Clone, Copy, PartialEq, Eq, Debug)]
pub(crate) enum Unspelled {
    /// Nothing is spelled.
    NotSpelled,
    /// There was no memory.
    NoMemory,
}
