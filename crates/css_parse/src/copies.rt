//! Copies of what tokens hold.
ghost use Rattle.std.specs.Prelude.{◌≡◌, IfOk, IfErr};
ghost use Rattle.css_base.specs.Tokens.{kind_of, lexemes};

use crate::gather::add;
use crate::unspelled::Unspelled;
use css_base::{Bytes, Token, TokenKind, Tokens};
use std::alloc::Global;

/// A copy of some bytes. The only error is `NoMemory`.
pub(crate) fn copied_bytes(alloc: Global, bytes: &[u8]) -> Result<Bytes, Unspelled>
    ensures ok { IfOk result (λ x. x ≡ bytes.now) }
    ensures no_memory { IfErr result (λ e. e ≡ Unspelled.NoMemory) }
{
    match Vec::from_slice(alloc, bytes) {
        Ok(copy) => Ok(Bytes::new(copy)),
        Err(_) => Err(Unspelled::NoMemory),
    }
}

/// A copy of some tokens. The only error is `NoMemory`.
#[cycle(copies)]
pub(crate) fn copied_tokens(alloc: Global, tokens: &[Token]) -> Result<Tokens, Unspelled>
    ensures ok { IfOk result (λ x. lexemes x.items ≡ lexemes tokens.now) }
    ensures no_memory { IfErr result (λ e. e ≡ Unspelled.NoMemory) }
{
    let mut all = Vec::new(alloc);
    for token in tokens {
        let kind = copied_kind(alloc, &token.kind)?;
        let copy = Token {
            kind,
            line: token.line,
            place: token.place,
            end: token.end,
        };
        add(&mut all, copy)?;
    }
    Ok(all)
}

/// A copy of what a token is. The only error is `NoMemory`.
#[cycle(copies)]
fn copied_kind(alloc: Global, kind: &TokenKind) -> Result<TokenKind, Unspelled>
    ensures ok { IfOk result (λ x. kind_of x ≡ kind_of kind.now) }
    ensures no_memory { IfErr result (λ e. e ≡ Unspelled.NoMemory) }
{
    match kind {
        TokenKind::Word(bytes) => Ok(TokenKind::Word(copied_bytes(alloc, bytes.as_slice())?)),
        TokenKind::Number { kind, value } => Ok(TokenKind::Number {
            kind: *kind,
            value: *value,
        }),
        TokenKind::Character(byte) => Ok(TokenKind::Character(*byte)),
        TokenKind::Text(bytes) => Ok(TokenKind::Text(copied_bytes(alloc, bytes.as_slice())?)),
        TokenKind::Punctuator(bytes) => Ok(TokenKind::Punctuator(copied_bytes(
            alloc,
            bytes.as_slice(),
        )?)),
        TokenKind::Directive(words) => {
            Ok(TokenKind::Directive(copied_tokens(alloc, words.as_slice())?))
        }
    }
}
