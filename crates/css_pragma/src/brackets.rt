//! The limit on open brackets.
ghost use Rattle.std.specs.Prelude.{◌≡◌, ◌<◌, ◌↔◌, IsTrue, [], ◌∷◌, codes, bytes_eq};
ghost use Rattle.css_base.specs.Tokens.{kind_of, lexemes};
ghost use Rattle.css_tree.specs.Brackets.{IsShallow, opens, closes, open_behind};

use css_base::{Token, TokenKind};

/// The most brackets that are open at a time.
const MOST_OPEN: u32 = 200;

/// The brackets that open.
const OPENING: [&[u8]; 3] = [b"(", b"[", b"{"];

/// The brackets that close.
const CLOSING: [&[u8]; 3] = [b")", b"]", b"}"];

/// Whether no prefix of the tokens leaves more than 200 brackets open.
pub(crate) fn is_shallow(tokens: &[Token]) -> bool
    ensures { IsTrue result ↔ IsShallow (lexemes tokens.now) }
{
    let mut count = 0;
    let mut rest = tokens;
    while let Some((token, behind)) = rest.split_first() {
        count = open_behind(count, &token.kind);
        if count > MOST_OPEN {
            return false;
        }
        rest = behind;
    }
    true
}

/// How many brackets are open behind a token, where so many were before it.
#[tactic(auto, unfolding(css_tree::specs::Brackets::open_behind))]
fn open_behind(count: u32, kind: &TokenKind) -> u32
    requires { count < 4294967295 }
    ensures { result ≡ open_behind count (kind_of kind.now) }
{
    if is_opening(kind) {
        count + 1
    } else if is_closing(kind) {
        count.saturating_sub(1)
    } else {
        count
    }
}

fn is_opening(kind: &TokenKind) -> bool
    ensures { result ≡ opens (kind_of kind.now) }
{
    match kind {
        TokenKind::Punctuator(bytes) => OPENING.iter().any(|bracket| bytes.as_slice() == *bracket),
        _ => false,
    }
}

fn is_closing(kind: &TokenKind) -> bool
    ensures { result ≡ closes (kind_of kind.now) }
{
    match kind {
        TokenKind::Punctuator(bytes) => CLOSING.iter().any(|bracket| bytes.as_slice() == *bracket),
        _ => false,
    }
}
