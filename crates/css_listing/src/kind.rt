//! The kinds of a listing's lines, by their first words, and of instructions with an operand.

/// What a line is.
#[derive(Clone, Copy)]
pub(crate) enum Kind {
    Head,
    Data,
    Opens,
    Task,
    Instr,
}

/// An instruction that has an operand.
#[derive(Clone, Copy)]
pub(crate) enum OpKind {
    Push,
    Dup,
    Frame,
    Shl,
    Shrs,
    Shru,
    Conv,
    Jump,
    Jumpz,
    Call,
    Submit,
    Mark,
    Out,
}
