//! Where a directive stands.

/// Where a directive stands, which tells what it may be.
#[derive(Clone, Copy, PartialEq, Eq, Debug)]
pub enum Place {
    /// Directly before a function: `task`.
    BeforeFunction,
    /// In a block: `start`, `finish`, `barrier` or `wait on`.
    InBlock,
}
