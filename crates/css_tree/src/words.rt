//! The words that make a type (C99 6.7.1 to 6.7.4, 6.7.6).

/// A word of a declaration's or type's front.
#[derive(Clone, Copy, PartialEq, Eq, Debug)]
pub enum Specifier {
    Void,
    Char,
    Short,
    Int,
    Long,
    Signed,
    Unsigned,
    Auto,
    Const,
    Inline,
    Register,
    Restrict,
    Volatile,
    /// Outside blocks alone.
    Static,
}

/// A word behind a star.
#[derive(Clone, Copy, PartialEq, Eq, Debug)]
pub enum Qualifier {
    Const,
    Volatile,
    Restrict,
}

/// A star of a pointer's type, with the words behind it.
#[derive(Drop)]
pub struct Star {
    pub qualifiers: Vec<Qualifier>,
}

/// A type without a name: `specs stars`.
#[derive(Drop)]
pub struct TypeName {
    pub specifiers: Vec<Specifier>,
    pub stars: Vec<Star>,
}
