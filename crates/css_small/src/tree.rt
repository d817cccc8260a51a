//! The tree of a program.

use css_base::Line;
use css_num::{BinOp, UnOp};

/// An expression of type int. Objects of a function are numbered from 0 in the order of its frame: a parameter, and then its
/// variables in order of declaration.
pub enum Expression {
    /// A constant, from 0 to 2,147,483,647.
    Number(u32),
    /// The value of a variable.
    Variable(u32),
    /// `p[e]`: the int so many places behind the one to which the parameter points.
    Element(Box<Expression>),
    Unary(UnOp, Box<Expression>),
    Binary(BinOp, Box<Expression>, Box<Expression>),
    /// `&&`: the second operand only where the first isn't 0.
    And(Box<Expression>, Box<Expression>),
    /// `||`: the second operand only where the first is 0.
    Or(Box<Expression>, Box<Expression>),
}

// By hand, so that a place that lets an expression go is one call in its proof.
impl Drop for Expression {
    fn drop(self) {
        match self {
            Expression::Number(_) => {}
            Expression::Variable(_) => {}
            Expression::Element(_) => {}
            Expression::Unary(_, _) => {}
            Expression::Binary(_, _, _) => {}
            Expression::And(_, _) => {}
            Expression::Or(_, _) => {}
        }
    }
}

/// What a directive of main tells the runtime.
#[derive(Clone, Copy, PartialEq, Eq, Debug)]
pub enum Directive {
    /// From here on calls of tasks make tasks.
    Start,
    /// All tasks are waited for, and calls make no more.
    Finish,
    /// All tasks are waited for.
    Barrier,
}

/// A statement, declaration or directive, with the line of its first token. An `else` belongs to the nearest `if` (C99 6.8.4.1).
pub enum Statement {
    /// `int x;`
    Declare {
        line: Line,
        variable: u32,
    },
    /// `int x = e;`
    Initialise {
        line: Line,
        variable: u32,
        value: Expression,
    },
    /// `;`
    Empty {
        line: Line,
    },
    /// `x = e;`
    Assign {
        line: Line,
        variable: u32,
        value: Expression,
    },
    /// `p[i] = e;`
    AssignElement {
        line: Line,
        index: Expression,
        value: Expression,
    },
    /// `f(&x);`
    Call {
        line: Line,
        /// The number of the function.
        function: u32,
        variable: u32,
    },
    /// `#pragma css start`, `finish` or `barrier`
    Directive {
        line: Line,
        kind: Directive,
    },
    /// `putchar(e);`
    Put {
        line: Line,
        value: Expression,
    },
    /// `return e;`
    Return {
        line: Line,
        value: Expression,
    },
    /// `{ .. }`
    Block {
        line: Line,
        statements: Vec<Statement>,
    },
    /// `if (e) s`
    If {
        line: Line,
        condition: Expression,
        body: Box<Statement>,
    },
    /// `if (e) s else t`
    IfElse {
        line: Line,
        condition: Expression,
        body: Box<Statement>,
        other: Box<Statement>,
    },
    /// `while (e) s`
    While {
        line: Line,
        condition: Expression,
        body: Box<Statement>,
    },
}

// By hand, so that a place that lets a statement go is one call in its proof.
impl Drop for Statement {
    fn drop(self) {
        match self {
            Statement::Declare {
                line: _,
                variable: _,
            } => {}
            Statement::Initialise {
                line: _,
                variable: _,
                value: _,
            } => {}
            Statement::Empty { line: _ } => {}
            Statement::Assign {
                line: _,
                variable: _,
                value: _,
            } => {}
            Statement::AssignElement {
                line: _,
                index: _,
                value: _,
            } => {}
            Statement::Call {
                line: _,
                function: _,
                variable: _,
            } => {}
            Statement::Directive { line: _, kind: _ } => {}
            Statement::Put { line: _, value: _ } => {}
            Statement::Return { line: _, value: _ } => {}
            Statement::Block {
                line: _,
                statements: _,
            } => {}
            Statement::If {
                line: _,
                condition: _,
                body: _,
            } => {}
            Statement::IfElse {
                line: _,
                condition: _,
                body: _,
                other: _,
            } => {}
            Statement::While {
                line: _,
                condition: _,
                body: _,
            } => {}
        }
    }
}

/// A function: main, or one that gets a pointer to an int.
#[derive(Drop)]
pub struct Function {
    /// Whether a directive makes a task of it.
    pub is_task: bool,
    /// The line of its first token, behind its directive.
    pub line: Line,
    /// The line of its closing brace.
    pub end: Line,
    /// How many parameters it has: none, or one, which is a pointer.
    pub parameters: u32,
    /// How many variables it has.
    pub variables: u32,
    pub body: Vec<Statement>,
}

/// A program: the functions that main may call, numbered from 0, and main.
#[derive(Drop)]
pub struct Program {
    pub functions: Vec<Function>,
    pub main: Function,
}
