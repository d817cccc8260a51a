//! Items: what stands outside blocks.

use crate::declaration::Declaration;
use crate::directive::Mark;
use crate::expression::Expression;
use crate::statement::Block;
use crate::words::{Specifier, Star};
use css_base::{Bytes, Line};

/// A program.
#[derive(Drop)]
pub struct Tree {
    pub items: Vec<Item>,
}

/// A function, or a declaration of objects.
#[derive(Drop)]
pub enum Item {
    /// A definition or, without a body, a prototype. The line is that of its first word, also behind a directive; the end is the
    /// line of its last token, which is a definition's closing brace.
    Function {
        directive: Option<Mark>,
        line: Line,
        end: Line,
        specifiers: Vec<Specifier>,
        stars: Vec<Star>,
        name: Bytes,
        parameters: Parameters,
        body: Option<Block>,
    },
    Declaration(Declaration),
}

/// What stands between a function's parentheses.
#[derive(Drop)]
pub enum Parameters {
    /// Nothing.
    Empty,
    /// `void` alone.
    Void,
    List(Vec<Parameter>),
}

/// `specs stars name { [ size ] }`. The name may be left out, and so may a size.
#[derive(Drop)]
pub struct Parameter {
    pub line: Line,
    pub specifiers: Vec<Specifier>,
    pub stars: Vec<Star>,
    pub name: Option<Bytes>,
    pub dimensions: Vec<Option<Expression>>,
}
