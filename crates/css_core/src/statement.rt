//! Statements of the core language.

use crate::expression::Expression;
use css_base::Line;

/// What a directive tells the runtime.
#[derive(Clone, Copy)]
pub enum Directive {
    Start,
    Finish,
    Barrier,
}

/// A statement. Those that ask something have their line.
pub enum Statement {
    /// Evaluates for what is asked on the way; an initialiser is one too.
    Eval {
        line: Line,
        value: Box<Expression>,
    },
    Block {
        all: Vec<Statement>,
    },
    If {
        line: Line,
        test: Box<Expression>,
        first: Box<Statement>,
        second: Box<Statement>,
    },
    /// Behind each turn of the body comes the step; a `do` doesn't test before its first turn.
    Loop {
        line: Line,
        tests_first: bool,
        test: Box<Expression>,
        step: Box<Expression>,
        body: Box<Statement>,
    },
    Break,
    Continue,
    Return {
        line: Line,
        value: Box<Expression>,
    },
    Mark {
        line: Line,
        kind: Directive,
    },
    /// Waits for what is at these addresses, one after another.
    Await {
        line: Line,
        places: Vec<Expression>,
    },
}

// By hand, so that a place that lets a statement go is one call in its proof.
impl Drop for Statement {
    fn drop(self) {
        match self {
            Statement::Eval { line: _, value: _ } => {}
            Statement::Block { all: _ } => {}
            Statement::If {
                line: _,
                test: _,
                first: _,
                second: _,
            } => {}
            Statement::Loop {
                line: _,
                tests_first: _,
                test: _,
                step: _,
                body: _,
            } => {}
            Statement::Break => {}
            Statement::Continue => {}
            Statement::Return { line: _, value: _ } => {}
            Statement::Mark { line: _, kind: _ } => {}
            Statement::Await { line: _, places: _ } => {}
        }
    }
}
