//! Words: keywords, and those that make a type.
ghost use Rattle.std.specs.Prelude.{◌≡◌, bytes_eq};
ghost use Rattle.std.specs.List.{list_any};
ghost use Rattle.css_tree.specs.Words.{is_keyword, specifier_text, qualifier_text};
ghost use Rattle.css_pexpr.specs.Signs.{specifier_spelled, specifier_of, qualifier_spelled};

use css_tree::{Qualifier, Scope, Specifier};

/// The keywords of C99 (6.4.1).
const KEYWORDS: [&[u8]; 37] = [
    b"auto",
    b"break",
    b"case",
    b"char",
    b"const",
    b"continue",
    b"default",
    b"do",
    b"double",
    b"else",
    b"enum",
    b"extern",
    b"float",
    b"for",
    b"goto",
    b"if",
    b"inline",
    b"int",
    b"long",
    b"register",
    b"restrict",
    b"return",
    b"short",
    b"signed",
    b"sizeof",
    b"static",
    b"struct",
    b"switch",
    b"typedef",
    b"union",
    b"unsigned",
    b"void",
    b"volatile",
    b"while",
    b"_Bool",
    b"_Complex",
    b"_Imaginary",
];

/// The words of a type's front.
const SPECIFIERS: [Specifier; 14] = [
    Specifier::Void,
    Specifier::Char,
    Specifier::Short,
    Specifier::Int,
    Specifier::Long,
    Specifier::Signed,
    Specifier::Unsigned,
    Specifier::Auto,
    Specifier::Const,
    Specifier::Inline,
    Specifier::Register,
    Specifier::Restrict,
    Specifier::Volatile,
    Specifier::Static,
];

/// The words behind a star.
const QUALIFIERS: [Qualifier; 3] = [Qualifier::Const, Qualifier::Volatile, Qualifier::Restrict];

/// Whether a word is a keyword.
pub(crate) fn is_keyword(bytes: &[u8]) -> bool
    ensures { result ≡ is_keyword bytes.now }
{
    is_listed(&KEYWORDS, bytes)
}

/// Whether a word is among some words.
fn is_listed(words: &[&[u8]], word: &[u8]) -> bool
    ensures { result ≡ list_any (λ known. bytes_eq word.now known.now) words.now }
{
    words.iter().any(|known| word == *known)
}

/// How the word is spelled.
fn specifier_text(specifier: Specifier) -> &'static [u8]
    ensures { result.now ≡ specifier_text specifier }
{
    match specifier {
        Specifier::Void => b"void",
        Specifier::Char => b"char",
        Specifier::Short => b"short",
        Specifier::Int => b"int",
        Specifier::Long => b"long",
        Specifier::Signed => b"signed",
        Specifier::Unsigned => b"unsigned",
        Specifier::Auto => b"auto",
        Specifier::Const => b"const",
        Specifier::Inline => b"inline",
        Specifier::Register => b"register",
        Specifier::Restrict => b"restrict",
        Specifier::Volatile => b"volatile",
        Specifier::Static => b"static",
    }
}

/// How the word is spelled.
fn qualifier_text(qualifier: Qualifier) -> &'static [u8]
    ensures { result.now ≡ qualifier_text qualifier }
{
    match qualifier {
        Qualifier::Const => b"const",
        Qualifier::Volatile => b"volatile",
        Qualifier::Restrict => b"restrict",
    }
}

#[tactic(auto, unfolding(crate::specs::Signs::specifier_spelled))]
fn specifier_spelled(bytes: &[u8]) -> Option<Specifier>
    ensures { result ≡ specifier_spelled bytes.now }
{
    SPECIFIERS
        .iter()
        .copied()
        .find(|specifier| specifier_text(*specifier) == bytes)
}

/// The word of a type's front of these bytes. In a block `static` is none.
pub(crate) fn specifier_of(scope: Scope, bytes: &[u8]) -> Option<Specifier>
    ensures { result ≡ specifier_of scope bytes.now }
{
    let specifier = specifier_spelled(bytes)?;
    match (scope, specifier) {
        (Scope::Block, Specifier::Static) => None,
        _ => Some(specifier),
    }
}

/// The word behind a star of these bytes.
#[tactic(auto, unfolding(crate::specs::Signs::qualifier_spelled))]
pub(crate) fn qualifier_spelled(bytes: &[u8]) -> Option<Qualifier>
    ensures { result ≡ qualifier_spelled bytes.now }
{
    QUALIFIERS
        .iter()
        .copied()
        .find(|qualifier| qualifier_text(*qualifier) == bytes)
}
