//! Expressions of the core language.

use css_base::IntType;
use css_num::{BinOp, UnOp};

/// How `printf` writes an argument.
#[derive(Clone, Copy)]
pub enum Conversion {
    /// `%c`
    Character,
    /// `%d`
    Signed,
    /// `%u`
    Unsigned,
    /// `%x`
    Hexadecimal,
    /// `%lld`
    Wide,
}

/// A piece of a format: a byte that is written as it is, or the next argument.
#[derive(Clone, Copy)]
pub enum Piece {
    Literal(u8),
    Shown(Conversion),
}

/// The value of an assignment that loads first: what was loaded, or what is stored.
#[derive(Clone, Copy)]
pub enum Gives {
    Old,
    New,
}

/// An expression. In it each conversion, size and scaling of an index is written out, and a pointer is an unsigned int.
pub enum Expression {
    /// A constant of the text, a size, or the address of a global.
    Number {
        value: i128,
    },
    /// The address so many bytes into the frame.
    Local {
        offset: u32,
    },
    /// In a dimension, the argument that a task is given for its parameter of this number.
    Given {
        parameter: u32,
    },
    /// What lies at a place, which is an address.
    Value {
        kind: IntType,
        place: Box<Expression>,
    },
    /// Stores a value, which has the type, at a place, and gives it.
    Assign {
        kind: IntType,
        place: Box<Expression>,
        value: Box<Expression>,
    },
    /// `a op= b`, `++` and `--`: loads what lies at a place, operates on it in the type `within`, and stores it as `kind`.
    Update {
        gives: Gives,
        kind: IntType,
        operator: BinOp,
        within: IntType,
        place: Box<Expression>,
        value: Box<Expression>,
    },
    /// A conversion to a type.
    Convert {
        kind: IntType,
        operand: Box<Expression>,
    },
    /// An operator in the type of its operand.
    Unary {
        operator: UnOp,
        kind: IntType,
        operand: Box<Expression>,
    },
    /// An operator in the type of its operands, of a shift in that of the left one.
    Binary {
        operator: BinOp,
        kind: IntType,
        left: Box<Expression>,
        right: Box<Expression>,
    },
    /// `&&`
    And {
        left: Box<Expression>,
        right: Box<Expression>,
    },
    /// `||`
    Or {
        left: Box<Expression>,
        right: Box<Expression>,
    },
    /// `test ? first : second`
    Choice {
        test: Box<Expression>,
        first: Box<Expression>,
        second: Box<Expression>,
    },
    /// `first, second`
    Sequence {
        first: Box<Expression>,
        second: Box<Expression>,
    },
    /// A call of the function of this number.
    Call {
        function: u32,
        arguments: Vec<Expression>,
    },
    /// `getchar()`
    Input,
    /// `putchar(..)`
    Put {
        value: Box<Expression>,
    },
    /// `printf(..)`
    Print {
        format: Vec<Piece>,
        arguments: Vec<Expression>,
    },
    /// `malloc(..)`
    Allocate {
        size: Box<Expression>,
    },
}

// By hand, so that a place that lets an expression go is one call in its proof.
impl Drop for Expression {
    fn drop(self) {
        match self {
            Expression::Number { value: _ } => {}
            Expression::Local { offset: _ } => {}
            Expression::Given { parameter: _ } => {}
            Expression::Value { kind: _, place: _ } => {}
            Expression::Assign {
                kind: _,
                place: _,
                value: _,
            } => {}
            Expression::Update {
                gives: _,
                kind: _,
                operator: _,
                within: _,
                place: _,
                value: _,
            } => {}
            Expression::Convert {
                kind: _,
                operand: _,
            } => {}
            Expression::Unary {
                operator: _,
                kind: _,
                operand: _,
            } => {}
            Expression::Binary {
                operator: _,
                kind: _,
                left: _,
                right: _,
            } => {}
            Expression::And { left: _, right: _ } => {}
            Expression::Or { left: _, right: _ } => {}
            Expression::Choice {
                test: _,
                first: _,
                second: _,
            } => {}
            Expression::Sequence {
                first: _,
                second: _,
            } => {}
            Expression::Call {
                function: _,
                arguments: _,
            } => {}
            Expression::Input => {}
            Expression::Put { value: _ } => {}
            Expression::Print {
                format: _,
                arguments: _,
            } => {}
            Expression::Allocate { size: _ } => {}
        }
    }
}
