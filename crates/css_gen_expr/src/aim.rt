//! What becomes of an expression's value.

/// What the code behind an expression takes of its value.
#[derive(Clone, Copy, PartialEq, Eq, Debug)]
pub enum Aim {
    /// The value's cell.
    Used,
    /// A cell that is 0 exactly where the value is; where the expression is turned round by a `!`, exactly where the value isn't.
    Tested,
    /// The low 32 bits: the cell is the value modulo 2^32.
    Low,
    /// Nothing: there is no cell.
    Unused,
}
