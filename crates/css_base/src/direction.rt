//! What a task does with an argument.

/// Whether a task reads an argument, writes it, or both: the clauses `input`, `output` and `inout` of its directive.
#[derive(Clone, Copy, PartialEq, Eq, Debug)]
pub enum Direction {
    /// It is read.
    In,
    /// It is written, and what it was before isn't seen.
    Out,
    /// It is read and written.
    InOut,
}
