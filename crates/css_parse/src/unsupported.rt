//! Keywords that this profile of C leaves out.
ghost use Rattle.std.specs.Prelude.{◌≡◌};
ghost use Rattle.css_base.specs.Tokens.{kind_of, lexeme, lexemes};
ghost use Rattle.css_parse.specs.Unsupported.{is_unsupported, word_lines, words_lines, token_lines, unsupported_lines, first};
ghost use Rattle.css_tree.specs.Shapes.{in_row};

use crate::keyword::is_listed;
use css_base::{Line, Token, TokenKind};

/// The keywords that are left out.
const UNSUPPORTED: [&[u8]; 14] = [
    b"_Bool",
    b"_Complex",
    b"_Imaginary",
    b"case",
    b"default",
    b"double",
    b"enum",
    b"extern",
    b"float",
    b"goto",
    b"struct",
    b"switch",
    b"typedef",
    b"union",
];

/// The line of the first keyword that is left out.
pub(crate) fn first_unsupported(tokens: &[Token]) -> Option<Line>
    ensures { result ≡ first (unsupported_lines (lexemes tokens.now)) }
{
    let mut rest = tokens;
    while let Some((token, behind)) = rest.split_first() {
        if let Some(line) = unsupported_at(token) {
            return Some(line);
        }
        rest = behind;
    }
    None
}

/// The line of the first such keyword that the token is or has among its words.
fn unsupported_at(token: &Token) -> Option<Line>
    ensures { result ≡ first (token_lines (lexeme token.now)) }
{
    match &token.kind {
        TokenKind::Directive(words) => unsupported_word(words.as_slice()),
        kind => unsupported_kind(kind, token.line),
    }
}

/// The line of the first such keyword among a directive's words.
fn unsupported_word(words: &[Token]) -> Option<Line>
    ensures { result ≡ first (words_lines (in_row (lexemes words.now))) }
{
    let mut rest = words;
    while let Some((word, behind)) = rest.split_first() {
        if let Some(line) = unsupported_kind(&word.kind, word.line) {
            return Some(line);
        }
        rest = behind;
    }
    None
}

/// The line of a word, where it is such a keyword.
fn unsupported_kind(kind: &TokenKind, line: Line) -> Option<Line>
    ensures { result ≡ first (word_lines (kind_of kind.now) line) }
{
    match kind {
        TokenKind::Word(bytes) if is_unsupported(bytes.as_slice()) => Some(line),
        _ => None,
    }
}

#[tactic(auto, unfolding(crate::specs::Unsupported::is_unsupported))]
fn is_unsupported(bytes: &[u8]) -> bool
    ensures { result ≡ is_unsupported bytes.now }
{
    is_listed(&UNSUPPORTED, bytes)
}
