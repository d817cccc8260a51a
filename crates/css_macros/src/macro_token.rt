//! The tokens that stand for a macro's name.
ghost use Rattle.std.specs.Prelude.{◌≡◌, IfOk};
ghost use Rattle.css_base.specs.Tokens.{kind_of};
ghost use Rattle.css_macros.specs.Macros.{IsNoDirective, same_kind};
ghost use Rattle.css_macros.specs.MacroTokens.{plain_kind};

use css_base::{Bytes, IntType, NoMemory, TokenKind};
use std::alloc::Global;

/// A token of a macro's replacement: what any token but a directive is.
pub enum MacroToken {
    /// An identifier or keyword.
    Word(Bytes),
    /// An integer constant (C99 6.4.4.1) with its type and value.
    Number { kind: IntType, value: u64 },
    /// A character constant with its value.
    Character(u8),
    /// A string, its escapes read.
    Text(Bytes),
    /// A punctuator (C99 6.4.6).
    Punctuator(Bytes),
}

// By hand, so that a place that lets a token go is one call in its proof.
impl Drop for MacroToken {
    fn drop(self) {
        match self {
            MacroToken::Word(_) => {}
            MacroToken::Number { kind: _, value: _ } => {}
            MacroToken::Character(_) => {}
            MacroToken::Text(_) => {}
            MacroToken::Punctuator(_) => {}
        }
    }
}

impl MacroToken {
    /// A token as a macro's token.
    pub fn new(kind: TokenKind) -> MacroToken
        requires { IsNoDirective (kind_of kind) }
        ensures { plain_kind result ≡ kind_of kind }
    {
        match kind {
            TokenKind::Word(bytes) => MacroToken::Word(bytes),
            TokenKind::Number { kind, value } => MacroToken::Number { kind, value },
            TokenKind::Character(byte) => MacroToken::Character(byte),
            TokenKind::Text(bytes) => MacroToken::Text(bytes),
            TokenKind::Punctuator(bytes) => MacroToken::Punctuator(bytes),
            TokenKind::Directive(_) => unreachable!(),
        }
    }

    /// The same token, ready to be put in the place of many names: `to_kind` doesn't copy its bytes.
    pub(crate) fn into_shared(self, alloc: Global) -> Result<MacroToken, NoMemory>
        ensures { IfOk result (λ token. plain_kind token ≡ plain_kind self) }
    {
        Ok(match self {
            MacroToken::Word(bytes) => MacroToken::Word(bytes.into_shared(alloc)?),
            MacroToken::Text(bytes) => MacroToken::Text(bytes.into_shared(alloc)?),
            MacroToken::Punctuator(bytes) => MacroToken::Punctuator(bytes.into_shared(alloc)?),
            other => other,
        })
    }

    /// The token that is put in the place of a macro's name. Its bytes are shared.
    pub fn to_kind(&self) -> Result<TokenKind, NoMemory>
        ensures { IfOk result (λ kind. kind_of kind ≡ plain_kind self.now) }
    {
        Ok(match self {
            MacroToken::Word(bytes) => TokenKind::Word(bytes.share()?),
            MacroToken::Number { kind, value } => TokenKind::Number {
                kind: *kind,
                value: *value,
            },
            MacroToken::Character(byte) => TokenKind::Character(*byte),
            MacroToken::Text(bytes) => TokenKind::Text(bytes.share()?),
            MacroToken::Punctuator(bytes) => TokenKind::Punctuator(bytes.share()?),
        })
    }

    /// Whether two tokens are the same: of one kind with one value, however they are spelled.
    pub(crate) fn is_same(&self, other: &MacroToken) -> bool
        ensures { result ≡ same_kind (plain_kind self.now) (plain_kind other.now) }
    {
        match (self, other) {
            (MacroToken::Word(a), MacroToken::Word(b)) => a.as_slice() == b.as_slice(),
            (MacroToken::Number { kind: s, value: a }, MacroToken::Number { kind: t, value: b }) =>
                *s == *t && *a == *b,
            (MacroToken::Character(a), MacroToken::Character(b)) => *a == *b,
            (MacroToken::Text(a), MacroToken::Text(b)) => a.as_slice() == b.as_slice(),
            (MacroToken::Punctuator(a), MacroToken::Punctuator(b)) => a.as_slice() == b.as_slice(),
            _ => false,
        }
    }
}
