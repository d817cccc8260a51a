//! What was read and waits for what follows.

use crate::follow::level_of;
use crate::node::{Arguments, Node};
use crate::prefix::{Prefix, operand_level};
use css_base::Line;
use css_tree::{AssignOperator, BinaryOperator, TypeName};

/// An operand that was read, with its level and the line of its first token.
#[derive(Drop)]
pub(crate) struct Operand {
    pub level: u8,
    pub line: Line,
    pub node: Node,
}

/// What waits for an operand. The line is that of the first token of what it makes.
#[derive(Drop)]
pub(crate) enum Frame {
    Prefix {
        line: Line,
        operator: Prefix,
    },
    /// A type in parentheses.
    Cast {
        line: Line,
        to: TypeName,
    },
    Infix {
        line: Line,
        left: Node,
        operator: BinaryOperator,
    },
    /// `condition ? first :`
    Otherwise {
        line: Line,
        condition: Node,
        first: Node,
    },
    Assign {
        line: Line,
        place: Node,
        operator: AssignOperator,
    },
    /// `left ,`
    Sequence {
        line: Line,
        left: Node,
    },
    /// `(`
    Group {
        line: Line,
    },
    /// `array [`
    Element {
        line: Line,
        array: Node,
    },
    /// `condition ?`
    Question {
        line: Line,
        condition: Node,
    },
    /// `callee (`, and the arguments with a comma behind each.
    Call {
        line: Line,
        callee: Node,
        arguments: Option<Arguments>,
    },
}

impl Frame {
    ghost use Rattle.std.specs.Prelude.{◌≡◌, ℕ, List, ◌∷◌};
    ghost use Rattle.css_pexpr.specs.Frames as spec;
    ghost use Rattle.css_pexpr.specs.Frames.{is_open, frame_level, frame_line, wanted, last_sizeof};
    ghost use Rattle.css_pexpr.specs.Shapes.{frame};

    /// Whether it has to be closed.
    pub(crate) fn is_open(&self) -> bool
        ensures { result ≡ is_open (frame self.now) }
    {
        matches!(
            self,
            Frame::Group { .. }
                | Frame::Element { .. }
                | Frame::Question { .. }
                | Frame::Call { .. }
        )
    }

    /// The line of the first token of what it makes.
    pub(crate) fn line(&self) -> Line
        ensures { result ≡ frame_line (frame self.now) }
    {
        match self {
            Frame::Prefix { line, .. }
            | Frame::Cast { line, .. }
            | Frame::Infix { line, .. }
            | Frame::Otherwise { line, .. }
            | Frame::Assign { line, .. }
            | Frame::Sequence { line, .. }
            | Frame::Group { line }
            | Frame::Element { line, .. }
            | Frame::Question { line, .. }
            | Frame::Call { line, .. } => *line,
        }
    }

    /// The level of what it makes.
    pub(crate) fn level(&self) -> u8
        ensures { result ≡ frame_level (frame self.now) }
    {
        match self {
            Frame::Prefix { .. } => 14,
            Frame::Cast { .. } => 13,
            Frame::Infix { operator, .. } => level_of(*operator),
            Frame::Otherwise { .. } | Frame::Question { .. } => 2,
            Frame::Assign { .. } => 1,
            Frame::Sequence { .. } => 0,
            Frame::Group { .. } | Frame::Element { .. } | Frame::Call { .. } => 15,
        }
    }

    /// The loosest level that it wants of its operand.
    pub(crate) fn wanted(&self) -> u8
        ensures { (level : ℕ) (others : List spec.Frame) → result ≡ wanted level (frame self.now ∷ others) }
    {
        match self {
            Frame::Prefix { operator, .. } => operand_level(*operator),
            Frame::Cast { .. } => 13,
            Frame::Infix { operator, .. } => level_of(*operator) + 1,
            Frame::Otherwise { .. } => 2,
            Frame::Assign { .. } | Frame::Sequence { .. } | Frame::Call { .. } => 1,
            Frame::Group { .. } | Frame::Element { .. } | Frame::Question { .. } => 0,
        }
    }

    /// The line of `sizeof`, if it is that.
    pub(crate) fn sizeof_line(&self) -> Option<Line>
        ensures { (others : List spec.Frame) → result ≡ last_sizeof (frame self.now ∷ others) }
    {
        match self {
            Frame::Prefix { line, operator } => match operator {
                Prefix::Sizeof => Some(*line),
                _ => None,
            },
            _ => None,
        }
    }
}
