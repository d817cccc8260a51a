//! The sizes of a generated program.

/// The sizes of a generated program.
#[derive(Clone, Copy, PartialEq, Eq)]
pub struct Shape {
    /// Blocks in a row and in a column of each matrix.
    pub nb: u32,
    /// Elements in a row and in a column of each block.
    pub bs: u32,
    /// The value that the first matrix's elements grow from.
    pub v: u32,
}
