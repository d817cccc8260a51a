//! Expressions.

use crate::operators::{AssignOperator, BinaryOperator, UnaryOperator};
use crate::words::TypeName;
use css_base::{Bytes, IntType, Line};

/// An expression (C99 6.5). Each node has the line of its first token; parentheses leave no node.
pub enum Expression {
    /// `left, right`
    Comma {
        line: Line,
        left: Box<Expression>,
        right: Box<Expression>,
    },
    /// `place = value`, or another operator that assigns
    Assign {
        line: Line,
        place: Box<Expression>,
        operator: AssignOperator,
        value: Box<Expression>,
    },
    /// `condition ? first : second`
    Conditional {
        line: Line,
        condition: Box<Expression>,
        first: Box<Expression>,
        second: Box<Expression>,
    },
    /// `left operator right`
    Binary {
        line: Line,
        left: Box<Expression>,
        operator: BinaryOperator,
        right: Box<Expression>,
    },
    /// `(type) operand`
    Cast {
        line: Line,
        to: TypeName,
        operand: Box<Expression>,
    },
    /// `++operand`
    PreIncrement {
        line: Line,
        operand: Box<Expression>,
    },
    /// `--operand`
    PreDecrement {
        line: Line,
        operand: Box<Expression>,
    },
    /// `operator operand`
    Unary {
        line: Line,
        operator: UnaryOperator,
        operand: Box<Expression>,
    },
    /// `sizeof operand`
    SizeofExpression {
        line: Line,
        operand: Box<Expression>,
    },
    /// `sizeof (type)`
    SizeofType {
        line: Line,
        of: TypeName,
    },
    /// `array[index]`
    Index {
        line: Line,
        array: Box<Expression>,
        index: Box<Expression>,
    },
    /// `operand++`
    PostIncrement {
        line: Line,
        operand: Box<Expression>,
    },
    /// `operand--`
    PostDecrement {
        line: Line,
        operand: Box<Expression>,
    },
    /// `name(arguments)`
    Call {
        line: Line,
        name: Bytes,
        arguments: Vec<Expression>,
    },
    Name {
        line: Line,
        name: Bytes,
    },
    /// An integer constant, or a character constant, which has type int.
    Number {
        line: Line,
        kind: IntType,
        value: u64,
    },
    /// A string.
    Text {
        line: Line,
        bytes: Bytes,
    },
}

// By hand, so that a place that lets an expression go is one call in its proof.
impl Drop for Expression {
    fn drop(self) {
        match self {
            Expression::Comma {
                line: _,
                left: _,
                right: _,
            } => {}
            Expression::Assign {
                line: _,
                place: _,
                operator: _,
                value: _,
            } => {}
            Expression::Conditional {
                line: _,
                condition: _,
                first: _,
                second: _,
            } => {}
            Expression::Binary {
                line: _,
                left: _,
                operator: _,
                right: _,
            } => {}
            Expression::Cast {
                line: _,
                to: _,
                operand: _,
            } => {}
            Expression::PreIncrement {
                line: _,
                operand: _,
            } => {}
            Expression::PreDecrement {
                line: _,
                operand: _,
            } => {}
            Expression::Unary {
                line: _,
                operator: _,
                operand: _,
            } => {}
            Expression::SizeofExpression {
                line: _,
                operand: _,
            } => {}
            Expression::SizeofType { line: _, of: _ } => {}
            Expression::Index {
                line: _,
                array: _,
                index: _,
            } => {}
            Expression::PostIncrement {
                line: _,
                operand: _,
            } => {}
            Expression::PostDecrement {
                line: _,
                operand: _,
            } => {}
            Expression::Call {
                line: _,
                name: _,
                arguments: _,
            } => {}
            Expression::Name { line: _, name: _ } => {}
            Expression::Number {
                line: _,
                kind: _,
                value: _,
            } => {}
            Expression::Text { line: _, bytes: _ } => {}
        }
    }
}

impl Expression {
    ghost use Rattle.std.specs.Prelude.{◌≡◌, ℕ, List, IfSome, IfNone, IfOk, IfErr};
    ghost use Rattle.css_tree.specs.Syntax as spec;
    ghost use Rattle.css_tree.specs.Shapes.{expression};

    /// The name, where the expression is a name alone.
    pub fn into_name(self) -> Option<Bytes>
        ensures found { IfSome result (λ name. (line : ℕ) × (expression self ≡ spec.Name line name)) }
        ensures none { IfNone result ((line : ℕ) (name : List ℕ) → expression self ≡ spec.Name line name → ⊥) }
    {
        match self {
            Expression::Name { line: _, name } => Some(name),
            _ => None,
        }
    }

    /// The line and the bytes, where the expression is a string alone, and else the expression itself.
    pub fn into_text(self) -> Result<(Line, Bytes), Expression>
        ensures found { IfOk result (λ text. expression self ≡ spec.Text text.0 text.1) }
        ensures same { IfErr result (λ e. e ≡ self) }
        ensures none { IfErr result (λ e. (line : ℕ) (bytes : List ℕ) → expression e ≡ spec.Text line bytes → ⊥) }
    {
        match self {
            Expression::Text { line, bytes } => Ok((line, bytes)),
            other => Err(other),
        }
    }
}
