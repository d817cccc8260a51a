//! Tasks, functions and programs of the core language.

use crate::expression::Expression;
use crate::statement::Statement;
use css_base::{Direction, IntType, Line};

/// What a task is given for a parameter: a number, or the bytes at a pointer. There the dimensions count elements of so many bytes, or,
/// where they are strided, are rows, width and stride.
#[derive(Drop)]
pub enum Part {
    Scalar,
    Window {
        direction: Direction,
        element: u32,
        is_strided: bool,
        dimensions: Vec<Expression>,
    },
}

/// A task: whether it goes before others, and a part for each parameter, in order.
#[derive(Drop)]
pub struct Task {
    pub high: bool,
    pub parts: Vec<Part>,
}

/// A function, with the lines of its first token and of its closing brace.
#[derive(Drop)]
pub struct Function {
    pub line: Line,
    pub end: Line,
    /// The bytes of its frame. Its parameters lie at the front, 8 bytes apart.
    pub frame: u32,
    pub parameters: Vec<IntType>,
    /// The type of its value, which is an int 0 where it is void.
    pub result: IntType,
    pub task: Option<Task>,
    pub body: Vec<Statement>,
}

/// Bytes of the globals that aren't all 0 at first.
#[derive(Drop)]
pub struct Datum {
    pub address: u32,
    pub bytes: Vec<u8>,
}

/// A program: where its globals end, their first bytes, its functions, and main's number among them.
#[derive(Drop)]
pub struct Program {
    pub globals_end: u32,
    pub datums: Vec<Datum>,
    pub functions: Vec<Function>,
    pub main: u32,
}
