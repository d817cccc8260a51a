//! Failure of the outside.

/// A call of the outside failed, and its count of faults has risen.
#[derive(Clone, Copy, PartialEq, Eq, Debug)]
pub struct Failed;
