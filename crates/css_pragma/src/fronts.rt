//! What stands at the front of some tokens.
ghost use Rattle.std.specs.Prelude.{◌≡◌, ◌↔◌, ◌<◌, length, ℕ, List, [], ◌∷◌, IsTrue, IfSome, IfNone};
ghost use Rattle.css_base.specs.Tokens.{Word, Punctuator, Lexeme, kind_of, lexemes};
ghost use Rattle.css_parse.specs.Fronts.{Next};

use css_base::{Token, TokenKind};

/// The tokens behind this word.
pub(crate) fn after_word<'a>(tokens: &'a [Token], word: &[u8]) -> Option<&'a [Token]>
    ensures found { IfSome result (λ rest. Next (Word word.now) (lexemes tokens.now) (lexemes rest.now)) }
    ensures shorter { IfSome result (λ rest. length rest.now < length tokens.now) }
    ensures none { IfNone result ((rest : List Lexeme) → Next (Word word.now) (lexemes tokens.now) rest → ⊥) }
{
    let (first, rest) = tokens.split_first()?;
    if is_word(&first.kind, word) {
        Some(rest)
    } else {
        None
    }
}

/// The tokens behind this punctuator.
pub(crate) fn after_mark<'a>(tokens: &'a [Token], mark: &[u8]) -> Option<&'a [Token]>
    ensures found { IfSome result (λ rest. Next (Punctuator mark.now) (lexemes tokens.now) (lexemes rest.now)) }
    ensures shorter { IfSome result (λ rest. length rest.now < length tokens.now) }
    ensures none { IfNone result ((rest : List Lexeme) → Next (Punctuator mark.now) (lexemes tokens.now) rest → ⊥) }
{
    let (first, rest) = tokens.split_first()?;
    if is_mark(&first.kind, mark) {
        Some(rest)
    } else {
        None
    }
}

/// Whether the tokens are this word and nothing behind it.
pub(crate) fn is_alone(tokens: &[Token], word: &[u8]) -> bool
    ensures { IsTrue result ↔ Next (Word word.now) (lexemes tokens.now) [] }
{
    match after_word(tokens, word) {
        Some(rest) => rest.is_empty(),
        None => false,
    }
}

/// Whether the token is this word.
fn is_word(kind: &TokenKind, word: &[u8]) -> bool
    ensures { IsTrue result ↔ (kind_of kind.now ≡ Word word.now) }
{
    match kind {
        TokenKind::Word(bytes) => bytes.as_slice() == word,
        _ => false,
    }
}

/// Whether the token is this punctuator.
fn is_mark(kind: &TokenKind, mark: &[u8]) -> bool
    ensures { IsTrue result ↔ (kind_of kind.now ≡ Punctuator mark.now) }
{
    match kind {
        TokenKind::Punctuator(bytes) => bytes.as_slice() == mark,
        _ => false,
    }
}
