//! Statements and blocks.

use crate::declaration::Declaration;
use crate::directive::Mark;
use crate::expression::Expression;
use css_base::Line;

/// `{ .. }`
#[cycle(statements)]
#[derive(Drop)]
pub struct Block {
    pub line: Line,
    pub entries: Vec<Entry>,
}

/// What stands in a block.
#[cycle(statements)]
#[derive(Drop)]
pub enum Entry {
    Declaration(Declaration),
    Directive(Mark),
    Statement(Statement),
}

/// What stands first in the head of a `for`.
#[derive(Drop)]
pub enum ForStart {
    Declaration(Declaration),
    Expression(Option<Expression>),
}

/// A statement (C99 6.8), with the line of its first token. An `else` belongs to the nearest `if`.
#[cycle(statements)]
pub enum Statement {
    Block(Block),
    /// `value;`
    Expression {
        line: Line,
        value: Option<Expression>,
    },
    /// `if (condition) first else second`
    If {
        line: Line,
        condition: Expression,
        first: Box<Statement>,
        second: Option<Box<Statement>>,
    },
    /// `while (condition) body`
    While {
        line: Line,
        condition: Expression,
        body: Box<Statement>,
    },
    /// `do body while (condition);`
    Do {
        line: Line,
        body: Box<Statement>,
        condition: Expression,
    },
    /// `for (start condition; step) body`
    For {
        line: Line,
        start: ForStart,
        condition: Option<Expression>,
        step: Option<Expression>,
        body: Box<Statement>,
    },
    /// `break;`
    Break {
        line: Line,
    },
    /// `continue;`
    Continue {
        line: Line,
    },
    /// `return value;`
    Return {
        line: Line,
        value: Option<Expression>,
    },
}

// By hand, so that a place that lets a statement go is one call in its proof.
impl Drop for Statement {
    #[cycle(statements)]
    fn drop(self) {
        match self {
            Statement::Block(_) => {}
            Statement::Expression { line: _, value: _ } => {}
            Statement::If {
                line: _,
                condition: _,
                first: _,
                second: _,
            } => {}
            Statement::While {
                line: _,
                condition: _,
                body: _,
            } => {}
            Statement::Do {
                line: _,
                body: _,
                condition: _,
            } => {}
            Statement::For {
                line: _,
                start: _,
                condition: _,
                step: _,
                body: _,
            } => {}
            Statement::Break { line: _ } => {}
            Statement::Continue { line: _ } => {}
            Statement::Return { line: _, value: _ } => {}
        }
    }
}
