//! What stands at the front of some tokens.
ghost use Rattle.std.specs.Prelude.{◌≡◌, ◌↔◌, ◌<◌, length, ℕ, List, ◌∷◌, IsTrue, IfSome, IfNone};
ghost use Rattle.css_base.specs.Tokens as tokens;
ghost use Rattle.css_base.specs.Tokens.{Word, Punctuator, Lexeme, kind_of, lexemes};
ghost use Rattle.css_tree.specs.Words.{is_keyword};
ghost use Rattle.css_parse.specs.Fronts.{Next};

use css_base::{Token, TokenKind};

/// The tokens behind this word.
pub(crate) fn after_word<'a>(tokens: &'a [Token], word: &[u8]) -> Option<&'a [Token]>
    ensures found { IfSome result (λ rest. Next (Word word.now) (lexemes tokens.now) (lexemes rest.now)) }
    ensures shorter { IfSome result (λ rest. length rest.now < length tokens.now) }
    ensures none { IfNone result ((rest : List Lexeme) → Next (Word word.now) (lexemes tokens.now) rest → ⊥) }
{
    let (first, rest) = tokens.split_first()?;
    if is_word(&first.kind, word) {
        Some(rest)
    } else {
        None
    }
}

/// The tokens behind this punctuator.
pub(crate) fn after_mark<'a>(tokens: &'a [Token], mark: &[u8]) -> Option<&'a [Token]>
    ensures found { IfSome result (λ rest. Next (Punctuator mark.now) (lexemes tokens.now) (lexemes rest.now)) }
    ensures shorter { IfSome result (λ rest. length rest.now < length tokens.now) }
    ensures none { IfNone result ((rest : List Lexeme) → Next (Punctuator mark.now) (lexemes tokens.now) rest → ⊥) }
{
    let (first, rest) = tokens.split_first()?;
    if is_mark(&first.kind, mark) {
        Some(rest)
    } else {
        None
    }
}

/// The first token's word, and the tokens behind it.
pub(crate) fn word_at(tokens: &[Token]) -> Option<(&[u8], &[Token])>
    ensures found { IfSome result (λ x. Next (Word x.0.now) (lexemes tokens.now) (lexemes x.1.now)) }
    ensures shorter { IfSome result (λ x. length x.1.now < length tokens.now) }
    ensures none { IfNone result
        ((word : List ℕ) (rest : List Lexeme) → Next (Word word) (lexemes tokens.now) rest → ⊥) }
{
    let (first, rest) = tokens.split_first()?;
    match &first.kind {
        TokenKind::Word(bytes) => Some((bytes.as_slice(), rest)),
        _ => None,
    }
}

/// Whether the token is this word.
pub(crate) fn is_word(kind: &TokenKind, word: &[u8]) -> bool
    ensures { IsTrue result ↔ (kind_of kind.now ≡ Word word.now) }
{
    match kind {
        TokenKind::Word(bytes) => bytes.as_slice() == word,
        _ => false,
    }
}

/// Whether the token is this punctuator.
pub(crate) fn is_mark(kind: &TokenKind, mark: &[u8]) -> bool
    ensures { IsTrue result ↔ (kind_of kind.now ≡ Punctuator mark.now) }
{
    match kind {
        TokenKind::Punctuator(bytes) => bytes.as_slice() == mark,
        _ => false,
    }
}
