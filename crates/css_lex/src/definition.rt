//! Names and tokens of macros in `#define` and `#undef` lines (C99 6.10.3).
ghost use Rattle.std.specs.Prelude.{◌≡◌, ◌≤◌, ◌<◌, All, length, drop, map, IfOk, MatchOption};
ghost use Rattle.css_base.specs.Tokens.{kind_of, lexeme, lexemes};
ghost use Rattle.css_lexemes.specs.Longest.{pieces_of};
ghost use Rattle.css_macros.specs.Macros.{IsNoDirective};
ghost use Rattle.css_macros.specs.MacroTokens.{plain_kinds};
ghost use Rattle.css_lex.specs.Reading.{from_solid, behind_first};
ghost use Rattle.css_lex.specs.HashLines.{opens, word_name, kind_at, only_name, front_name, behind_name};

use crate::breach::Breach;
use crate::words::{LineBytes, Words, piece_from};
use css_base::{Bytes, NoMemory, Token, TokenKind};
use css_lexemes::without_blanks;
use css_macros::MacroToken;
use std::alloc::Global;

/// The name that a token is.
fn name_of(kind: TokenKind) -> Option<Bytes>
    ensures { result ≡ word_name (kind_of kind) }
{
    match kind {
        TokenKind::Word(bytes) => Some(bytes),
        _ => None,
    }
}

/// The name that is all the words.
pub(crate) fn sole_name(words: Words) -> Option<Bytes>
    ensures { result ≡ only_name (lexemes words.tokens.items) words.failure }
{
    let Words {
        mut tokens,
        failure,
    } = words;
    if failure.is_some() || tokens.len() != 1 {
        return None;
    }
    let token = tokens.pop()?;
    name_of(token.kind)
}

/// A macro's name, and the tokens behind it.
#[derive(Drop)]
pub(crate) struct Named {
    pub(crate) name: Bytes,
    pub(crate) tokens: Vec<Token>,
}

/// The name in front of some words.
pub(crate) fn split_name(mut words: Vec<Token>) -> Option<Named>
    ensures { MatchOption result (front_name (lexemes words.items) ≡ None)
        (λ n. (front_name (lexemes words.items) ≡ Some n.name) × (lexemes n.tokens.items ≡ behind_name (lexemes words.items))) }
{
    if words.is_empty() {
        return None;
    }
    let first = words.remove(0);
    let name = name_of(first.kind)?;
    Some(Named {
        name,
        tokens: words,
    })
}

/// The tokens of a macro.
pub(crate) fn macro_tokens(alloc: Global, words: Vec<Token>) -> Result<Vec<MacroToken>, NoMemory>
    requires { All (λ w. IsNoDirective (kind_at w)) (lexemes words.items) }
    ensures { IfOk result (λ tokens. plain_kinds tokens.items ≡ map kind_at (lexemes words.items)) }
{
    let mut tokens = Vec::new(alloc);
    let mut rest = words.into_iter();
    while let Some(word) = rest.next() {
        tokens.push(MacroToken::new(word.kind))?;
    }
    Ok(tokens)
}

/// The index of a line's first byte from an index on that is no white space, or the line's end.
fn solid_from(line: &LineBytes, from: usize) -> usize
    requires { from ≤ length line.now.bytes.now }
    ensures pieces { pieces_of (drop result line.now.source.now) ≡ from_solid (pieces_of (drop from line.now.source.now)) }
    ensures within { result ≤ length line.now.bytes.now }
{
    line.bytes.len() - without_blanks(&line.bytes[from..]).len()
}

/// The index behind a line's first solid piece from an index on, or the line's end.
fn behind_solid(line: &LineBytes, from: usize) -> usize
    requires { from ≤ length line.now.bytes.now }
    ensures pieces { pieces_of (drop result line.now.source.now) ≡ behind_first (pieces_of (drop from line.now.source.now)) }
    ensures within { result ≤ length line.now.bytes.now }
{
    let at = solid_from(line, from);
    if at == line.bytes.len() {
        return at;
    }
    piece_from(line, at).to
}

/// Whether a parenthesis stands directly behind the third piece of a line.
pub(crate) fn is_function_like(line: &LineBytes) -> bool
    ensures { result ≡ opens (from_solid (behind_first (behind_first (pieces_of line.now.source.now)))) }
{
    let word = behind_solid(line, 0);
    let name = behind_solid(line, word);
    let behind = behind_solid(line, name);
    behind < line.bytes.len() && line.bytes[behind] == b'('
}
