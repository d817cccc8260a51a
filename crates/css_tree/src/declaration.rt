//! Declarations.

use crate::expression::Expression;
use crate::words::{Specifier, Star};
use css_base::{Bytes, Line};

/// `specs decls ;`
#[derive(Drop)]
pub struct Declaration {
    pub line: Line,
    pub specifiers: Vec<Specifier>,
    pub declarators: Vec<Declarator>,
}

/// A declared name: `stars name { [ size ] } = value`. A size may be left out, and so may the value.
#[derive(Drop)]
pub struct Declarator {
    pub line: Line,
    pub stars: Vec<Star>,
    pub name: Bytes,
    pub dimensions: Vec<Option<Expression>>,
    pub initialiser: Option<Initialiser>,
}

/// What a declared name begins with (C99 6.7.8).
pub enum Initialiser {
    Value(Expression),
    /// A string alone.
    Text { line: Line, bytes: Bytes },
    /// `{ .. }`
    List { line: Line, parts: Vec<Initialiser> },
}

// By hand, so that a place that lets an initialiser go is one call in its proof.
impl Drop for Initialiser {
    fn drop(self) {
        match self {
            Initialiser::Value(_) => {}
            Initialiser::Text { line: _, bytes: _ } => {}
            Initialiser::List { line: _, parts: _ } => {}
        }
    }
}
