//! Directives: as marks of a tree, and read.

use crate::expression::Expression;
use css_base::{Bytes, Direction, Line, Tokens};

/// A directive that isn't read yet: its line, and the words after `#pragma css`.
#[derive(Drop)]
pub struct Mark {
    pub line: Line,
    pub words: Tokens,
}

/// A directive that was read, with its line.
#[derive(Drop)]
pub enum Directive {
    Start {
        line: Line,
    },
    Finish {
        line: Line,
    },
    Barrier {
        line: Line,
    },
    /// `wait on (addresses)`
    Wait {
        line: Line,
        addresses: Vec<Expression>,
    },
    Task {
        line: Line,
        clauses: Vec<Clause>,
    },
}

/// A part of a task's directive.
#[derive(Drop)]
pub enum Clause {
    /// `input(..)`, `output(..)` or `inout(..)`
    Arguments {
        direction: Direction,
        arguments: Vec<Argument>,
    },
    /// `highpriority`
    HighPriority,
}

/// A parameter that a clause names.
#[derive(Drop)]
pub enum Argument {
    /// `name { [ dimension ] }`
    Plain {
        name: Bytes,
        dimensions: Vec<Expression>,
    },
    /// `name { rows, width, stride }`: a block of a larger matrix, its width and stride in elements
    Strided {
        name: Bytes,
        rows: Expression,
        width: Expression,
        stride: Expression,
    },
}
