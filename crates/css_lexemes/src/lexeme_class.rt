//! The classes of lexemes (C99 6.4).

/// What a lexeme is by its spelling.
#[derive(Clone, Copy, PartialEq, Eq, Debug)]
pub enum LexemeClass {
    /// An identifier or keyword.
    Identifier,
    /// A preprocessing number.
    Number,
    /// A character constant.
    Character,
    /// A string.
    Text,
    /// A punctuator.
    Punctuator,
}
