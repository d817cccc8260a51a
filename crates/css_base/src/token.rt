//! Tokens.

use crate::bytes::Bytes;
use crate::int_type::IntType;
use crate::line::Line;

/// A token with its line and its place: the bytes of the text from `place` up to `end`.
/// For a token that came from a macro both are of the macro's use.
#[cycle(token)]
#[derive(Drop)]
pub struct Token {
    pub kind: TokenKind,
    pub line: Line,
    pub place: u32,
    pub end: u32,
}

/// What a token is.
#[cycle(token)]
#[derive(Drop)]
pub enum TokenKind {
    /// An identifier or keyword.
    Word(Bytes),
    /// An integer constant (C99 6.4.4.1) with its type and value.
    Number { kind: IntType, value: u64 },
    /// A character constant with its value.
    Character(u8),
    /// A string, its escapes read.
    Text(Bytes),
    /// A punctuator (C99 6.4.6).
    Punctuator(Bytes),
    /// The words of a `#pragma css` line.
    Directive(Tokens),
}

/// Tokens in order.
pub type Tokens = Vec<Token>;
